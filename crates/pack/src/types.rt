// Types: a loop over heads in preorder, since a type may nest as deep as the pack is long.
#![tactic(auto, unfolding(wire::specs::Answer::bind, wire::specs::Answer::map_a, wire::specs::Code::read_of, wire::specs::Code::skip, pack_rules::specs::Forms::type_fields, pack_rules::specs::Forms::type_arity, pack_rules::specs::Forms::type_head, crate::specs::Heads::type_more))]

ghost use Rattle.std.specs.Prelude.{◌≡◌, ◌≤◌, List, length};
ghost use Rattle.wire.specs.Answer.{map_a};
ghost use Rattle.wire.specs.Code.{read_of, skip};
ghost use Rattle.pack_rules.specs.Forms.{type_arity, type_fields, type_at};
ghost use Rattle.pack.specs.Heads.{type_more};
ghost use Rattle.pack_rules.specs.Names.{Name};
ghost use Rattle.pack_rules.specs.Read.{type_in};
ghost use Rattle.pack_rules.specs.Limits.{max_bytes};

use wire::answer::{Number, Read, Skipped};
use wire::number::{read_below, read_index, read_u32};

// How many types stand under a type of this tag: 1 under an array, and 0 under any other.
pub fn type_fields(pack: &[u8], names: usize, tag: usize, at: usize) -> Read
    ensures { result ≡ read_of (map_a type_arity (type_fields names tag pack.now at)) }
{
    match tag {
        12 => Ok(Number {
            value: 1,
            ..read_u32(pack, at)?
        }),
        13 => Ok(Number {
            value: 0,
            ..read_index(pack, names, at)?
        }),
        _ => Ok(Number { value: 0, next: at }),
    }
}

// A type's tag and fields: how many types stand under it.
pub fn type_head(pack: &[u8], names: usize, at: usize) -> Read
    ensures { result ≡ read_of (type_more names pack.now at) }
{
    let tag = read_below(pack, 14, at)?;
    type_fields(pack, names, tag.value, tag.next)
}

// A type: heads are read until no type is to come.
pub fn skip_type(pack: &[u8], names: usize, at: usize) -> Skipped
    requires { length pack.now ≤ max_bytes }
    ensures by_number { result ≡ skip (type_at names pack.now at) }
    ensures by_names { (ns : List Name) → length ns ≡ names → result ≡ skip (type_in ns pack.now at) }
{
    let mut n = 1;
    let mut p = at;
    while 0 < n {
        let head = type_head(pack, names, p)?;
        n = n - 1 + head.value;
        p = head.next;
    }
    Ok(p)
}
