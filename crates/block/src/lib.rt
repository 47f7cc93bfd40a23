// What one problem of a stream prints, from what the solver and the judge gave back: the solver's lines, the judge's line and an empty line.
#![tactic(auto)]

ghost use Rattle.std.specs.Prelude.{◌≡◌, ◌+◌, ◌*◌, ◌≤◌, length, take};
ghost use Rattle.printer.specs.Placed.{Placed};
ghost use Rattle.block.specs.Block.{lines_given};

use numbers::Given;

// The lines, whole, in `out` from its start, and where they end. Of any number and place: a Result would ask more of who calls.
pub fn lines(out: &mut [u8], solved: Given, output: &[u8], judged: Given) -> usize
    requires { 4 * length output.now + 67 ≤ length out.old }
    ensures out_after { take result out.new ≡ lines_given solved output.now judged }
    ensures placed { Placed out.old 0 (lines_given solved output.now judged) result out.new }
{
    printer::problem_lines(out, 0, solved, output, judged)
}
