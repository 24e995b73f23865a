// The C interface, and nothing else: a static library exports only the functions of its own crate, and no crate can use it. Each
// function calls the one of its name in ol_lower and says the same.
#![tactic(auto)]

ghost use Rattle.std.specs.Prelude.{◌≡◌, ℕ, ◌<◌, length, take};
ghost use Rattle.pack_rules.specs.Outcome.{check, output_of, report_of, returned};
ghost use Rattle.machine_rules.specs.Call.{lower_machines};
ghost use Rattle.activation_rules.specs.Call.{lower_activations};
ghost use Rattle.runs.specs.Claim.{ActivationsLowered, MachinesLowered};
ghost use Rattle.runs.specs.OwnCycles.{ScopesLowered};

// Checks a pack.
#[unsafe(no_mangle)]
pub extern "C" fn ol_pack_check(pack: &[u8]) -> u64
    ensures { result ≡ returned (check pack.now) }
{
    ol_lower::ol_pack_check(pack)
}

// Lowers the machines of a pack. Where the number is 0, every run of the equations that it wrote for a machine is a run of the
// plain chart.
#[unsafe(no_mangle)]
pub extern "C" fn ol_lower_state_machines(pack: &[u8], output: &mut [u8], report: &mut [u8]) -> u64
    ensures word { result ≡ returned (lower_machines pack.now (length output.old) (length report.old)) }
    ensures output { output.new ≡ output_of (lower_machines pack.now (length output.old) (length report.old)) output.old }
    ensures report { report.new ≡ report_of (lower_machines pack.now (length output.old) (length report.old)) report.old }
    ensures runs { result < 4294967296 → MachinesLowered ℕ pack.now (take result output.new) }
{
    ol_lower::ol_lower_state_machines(pack, output, report)
}

// Lowers the activations of a pack. Where the number is 0, every run of the equations that it wrote for an activation gives its
// outputs what the chosen scope gives; and, under the premises of scopes on their own cycles (docs/RUNS.md), what that scope gives
// over just the cycles in which it is chosen.
#[unsafe(no_mangle)]
pub extern "C" fn ol_lower_activations(pack: &[u8], output: &mut [u8], report: &mut [u8]) -> u64
    ensures word { result ≡ returned (lower_activations pack.now (length output.old) (length report.old)) }
    ensures output { output.new ≡ output_of (lower_activations pack.now (length output.old) (length report.old)) output.old }
    ensures report { report.new ≡ report_of (lower_activations pack.now (length output.old) (length report.old)) report.old }
    ensures runs { result < 4294967296 → ActivationsLowered ℕ pack.now (take result output.new) }
    ensures scopes { result < 4294967296 → ScopesLowered ℕ pack.now (take result output.new) }
{
    ol_lower::ol_lower_activations(pack, output, report)
}
