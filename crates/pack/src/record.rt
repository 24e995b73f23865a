// The pack record: where a pack's sections stand, and the limits of a pack.
ghost use Rattle.std.specs.Prelude.{◌≡◌};
ghost use Rattle.pack.specs.Verdict.{empty_record};

#[derive(Clone, Copy, Debug, PartialEq, Eq)]
pub struct Pack {
    pub names: usize,
    pub enums: usize,
    pub nodes: usize,
    pub machines: usize,
    pub activations: usize,
    pub origins: usize,
    pub end: usize,
}

impl Pack {
    // Bytes of a pack.
    pub const BYTES: usize = 65536;
    // The deepest region level; top states are level 1.
    pub const LEVELS: usize = 8;
    // Bytes of a name.
    pub const NAME: usize = 255;
    // States of a resolved machine.
    pub const STATES: usize = 512;
    // The index that stands for no name.
    pub const ABSENT: usize = 65535;

    // The record of the pack that holds nothing: twelve zero bytes.
    pub fn empty() -> Pack
        ensures { result ≡ empty_record }
    {
        Pack {
            names: 0,
            enums: 2,
            nodes: 4,
            machines: 6,
            activations: 8,
            origins: 10,
            end: 12,
        }
    }
}
