// The lowerings, with what the runs of their equations are held to as their contracts.
ghost use Rattle.std.specs.Prelude.{◌≡◌, ℕ, ◌<◌, ◌≤◌, length, take};
ghost use Rattle.pack_rules.specs.Outcome.{Answers};
ghost use Rattle.pack.specs.Finish.{number_for, value_for};
ghost use Rattle.machine_rules.specs.Call.{lower_machines};
ghost use Rattle.activation_rules.specs.Call.{lower_activations};
ghost use Rattle.runs.specs.Claim.{ActivationsLowered, MachinesLowered};
ghost use Rattle.runs.specs.OwnCycles.{ScopesLowered};

use pack::finish::Outcome;

// Lowers the machines of a pack: number, value and every byte are the definition's. Where it returns 0, every run of the
// equations that it wrote for a machine is a run of the plain chart.
pub fn lower_state_machines(pack: &[u8], output: &mut [u8], report: &mut [u8]) -> Outcome
    ensures answers { Answers (lower_machines pack.now (length output.old) (length report.old)) (number_for result) (value_for result) output.old output.new report.old report.new }
    ensures fits { (number_for result ≤ 9) × (value_for result < 4294967296) }
    ensures runs { number_for result ≡ 0 → MachinesLowered ℕ pack.now (take (value_for result) output.new) }
{
    machines::call::lower_state_machines(pack, output, report)
}

// Lowers the activations of a pack: number, value and every byte are the definition's. Where it returns 0, every run of the
// equations that it wrote for an activation gives its outputs what the chosen scope gives; and, under the premises of scopes on
// their own cycles (docs/RUNS.md), what that scope gives over just the cycles in which it is chosen.
pub fn lower_activations(pack: &[u8], output: &mut [u8], report: &mut [u8]) -> Outcome
    ensures answers { Answers (lower_activations pack.now (length output.old) (length report.old)) (number_for result) (value_for result) output.old output.new report.old report.new }
    ensures fits { (number_for result ≤ 9) × (value_for result < 4294967296) }
    ensures runs { number_for result ≡ 0 → ActivationsLowered ℕ pack.now (take (value_for result) output.new) }
    ensures scopes { number_for result ≡ 0 → ScopesLowered ℕ pack.now (take (value_for result) output.new) }
{
    activations::call::lower_activations(pack, output, report)
}
