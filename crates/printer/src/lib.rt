// The printer: what the solver and the judge give back, as lines of text in lent bytes. What does not fit is left out, so that no function asks
// for room; four bytes of room for each byte of an answer are always enough.
#![tactic(auto)]

ghost use Rattle.std.specs.Prelude.{◌≡◌, true, false, IfSome, None, length};
ghost use Rattle.printer.specs.Placed.{Placed};
ghost use Rattle.layout.specs.Parts.{part_fits};
ghost use Rattle.printer.specs.Lines.{decimal, spaced, images, accepted_line, refused_line, bind_line, fresh_line, field_line};
ghost use Rattle.printer.specs.Lines.{answer_lines, solver_lines, judge_line, problem_lines, cut_line};
ghost use Rattle.printer.specs.Kinds.{kind_of};
ghost use Rattle.printer.specs.Tags.{tag_of};

use field::AtFront;
use names::{Atom, NodeId, Variable};
use numbers::Given;

// Writes s from index `at` on, as much as fits, and answers where it ends: what is written next starts there.
pub fn put(out: &mut [u8], at: usize, s: &[u8]) -> usize
    ensures { Placed out.old at s.now result out.new }
{
    if out.len() <= at {
        return out.len();
    }
    let fits = s.len().min(out.len() - at);
    out[at..at + fits].copy_from_slice(&s[..fits]);
    at + fits
}

// What a field of an answer says, told by its tag and by how long its body is.
#[derive(Clone, Copy, PartialEq, Eq)]
enum Part {
    Steps,
    Binding,
    Fact,
}

// Nothing for a field that no answer has.
#[tactic(auto, unfolding(layout::specs::Parts::part_fits))]
fn part_of(tag: u8, n: usize) -> Option<Part>
    ensures some { IfSome result (λ part. (tag ≡ tag_of part) × (part_fits tag n ≡ true)) }
    ensures none { result ≡ None → part_fits tag n ≡ false }
{
    match tag {
        0x4e if n == 4 => Some(Part::Steps),
        0x40 if 3 <= n => Some(Part::Binding),
        0x41 if n == 2 => Some(Part::Fact),
        _ => None,
    }
}

// Lent bytes, and the index at which the next text starts. The public functions keep out and at: what they promise may not change.
#[derive(Drop)]
struct Lines<'a> {
    out: &'a mut [u8],
    at: usize,
}

// `same`: that a field keeps its reference is not known of a struct behind &mut, so each method says it.
impl<'a> Lines<'a> {
    fn put(&mut self, s: &[u8])
        ensures same { self.new.out.ghost_name ≡ self.old.out.ghost_name }
        ensures placed { Placed self.old.out.now self.old.at s.now self.new.at self.new.out.now }
    {
        self.at = put(self.out, self.at, s);
    }

    // By hand, and not by Display: `write!` promises its text only where it came back Ok, and no clause of it says that it does. What a line
    // puts here cannot fail. A digit is cast: try_from would bring a branch that is never taken.
    fn decimal(&mut self, x: usize)
        ensures same { self.new.out.ghost_name ≡ self.old.out.ghost_name }
        ensures placed { Placed self.old.out.now self.old.at (decimal x) self.new.at self.new.out.now }
    {
        if 10 <= x {
            self.decimal(x / 10);
        }
        self.put(&[b'0' + (x % 10) as u8]);
    }

    fn spaced(&mut self, x: usize)
        ensures same { self.new.out.ghost_name ≡ self.old.out.ghost_name }
        ensures placed { Placed self.old.out.now self.old.at (spaced x) self.new.at self.new.out.now }
    {
        self.put(b" ");
        self.decimal(x);
    }

    fn images(&mut self, s: &[u8])
        ensures same { self.new.out.ghost_name ≡ self.old.out.ghost_name }
        ensures placed { Placed self.old.out.now self.old.at (images s.now) self.new.at self.new.out.now }
    {
        if self.out.len() <= self.at {
            self.at = self.out.len();
            return;
        }
        for &image in s {
            self.spaced(usize::from(image));
        }
    }

    fn accepted(&mut self, steps: u32)
        ensures same { self.new.out.ghost_name ≡ self.old.out.ghost_name }
        ensures placed { Placed self.old.out.now self.old.at (accepted_line steps) self.new.at self.new.out.now }
    {
        self.put(b"accepted ");
        // Of a u32 no From makes a usize.
        self.decimal(steps as usize);
        self.put(b"\n");
    }

    fn refused(&mut self, given: Given)
        ensures same { self.new.out.ghost_name ≡ self.old.out.ghost_name }
        ensures placed { Placed self.old.out.now self.old.at (refused_line given.number given.place) self.new.at self.new.out.now }
    {
        self.put(b"refused ");
        self.decimal(usize::from(given.number));
        self.spaced(given.place);
        self.put(b"\n");
    }

    fn bind(&mut self, variable: Variable, node: NodeId, images: &[u8])
        ensures same { self.new.out.ghost_name ≡ self.old.out.ghost_name }
        ensures placed { Placed self.old.out.now self.old.at (bind_line variable.0 node.0 images.now) self.new.at self.new.out.now }
    {
        self.put(b"bind ");
        self.decimal(usize::from(variable.0));
        self.spaced(usize::from(node.0));
        self.images(images);
        self.put(b"\n"); // with no images too
    }

    fn fresh(&mut self, atom: Atom, variable: Variable)
        ensures same { self.new.out.ghost_name ≡ self.old.out.ghost_name }
        ensures placed { Placed self.old.out.now self.old.at (fresh_line atom.0 variable.0) self.new.at self.new.out.now }
    {
        self.put(b"fresh ");
        self.decimal(usize::from(atom.0));
        self.spaced(usize::from(variable.0));
        self.put(b"\n");
    }

    #[tactic(auto, using(crate::proofs::Walking::steps_length, crate::proofs::Walking::binding_length, crate::proofs::Walking::fact_length))]
    fn field(&mut self, part: Part, body: &[u8])
        requires { part_fits (tag_of part) (length body.now) ≡ true }
        ensures same { self.new.out.ghost_name ≡ self.old.out.ghost_name }
        ensures placed { Placed self.old.out.now self.old.at (field_line (tag_of part) body.now) self.new.at self.new.out.now }
    {
        match part {
            Part::Steps => self.accepted(field::four(body, 0)),
            Part::Binding => {
                self.bind(Variable(body[0]), NodeId(field::two(body, 1)), &body[3..]);
            }
            Part::Fact => self.fresh(Atom(body[0]), Variable(body[1])),
        }
    }

    // The answer's lines, in answer order.
    fn answer(&mut self, answer: &[u8])
        ensures same { self.new.out.ghost_name ≡ self.old.out.ghost_name }
        ensures placed { Placed self.old.out.now self.old.at (answer_lines answer.now) self.new.at self.new.out.now }
    {
        if self.out.len() <= self.at {
            self.at = self.out.len();
            return;
        }
        let mut rest = answer;
        while let AtFront::Whole(tag, n) = field::front(rest) {
            let Some(part) = part_of(tag, n) else {
                return;
            };
            self.field(part, field::body(rest, n));
            rest = &rest[3 + n..];
        }
    }

    #[tactic(auto, unfolding(crate::specs::Lines::solver_lines))]
    fn solver(&mut self, given: Given, output: &[u8])
        ensures same { self.new.out.ghost_name ≡ self.old.out.ghost_name }
        ensures placed { Placed self.old.out.now self.old.at (solver_lines given.number given.place output.now) self.new.at self.new.out.now }
    {
        if given.number != 0 {
            self.refused(given);
        } else if given.place < output.len() {
            self.answer(&output[..given.place]);
        } else {
            self.answer(output);
        }
    }

    #[tactic(auto, unfolding(crate::specs::Lines::judge_line))]
    fn judge(&mut self, given: Given)
        ensures same { self.new.out.ghost_name ≡ self.old.out.ghost_name }
        ensures placed { Placed self.old.out.now self.old.at (judge_line given.number given.place) self.new.at self.new.out.now }
    {
        if given.number != 0 {
            self.refused(given);
        } else {
            self.put(b"holds\n");
        }
    }
}

// The solver's lines, from what it gives back, with the lent output: any number and place, also such as the table has not.
pub fn solver_lines(out: &mut [u8], at: usize, given: Given, output: &[u8]) -> usize
    ensures { Placed out.old at (solver_lines given.number given.place output.now) result out.new }
{
    let mut lines = Lines { out, at };
    lines.solver(given, output);
    lines.at
}

// The judge's line.
pub fn judge_line(out: &mut [u8], at: usize, given: Given) -> usize
    ensures { Placed out.old at (judge_line given.number given.place) result out.new }
{
    let mut lines = Lines { out, at };
    lines.judge(given);
    lines.at
}

// What one problem of a stream prints.
pub fn problem_lines(
    out: &mut [u8],
    at: usize,
    solved: Given,
    output: &[u8],
    judged: Given,
) -> usize
    ensures { Placed out.old at (problem_lines solved.number solved.place output.now judged.number judged.place) result out.new }
{
    let mut lines = Lines { out, at };
    lines.solver(solved, output);
    lines.judge(judged);
    lines.put(b"\n");
    lines.at
}

// The last line of a stream that ends inside a length or a problem.
pub fn cut_line(out: &mut [u8], at: usize, count: usize) -> usize
    ensures { Placed out.old at (cut_line count) result out.new }
{
    let mut lines = Lines { out, at };
    lines.put(b"stream cut after ");
    lines.decimal(count);
    lines.put(b" problems");
    lines.put(b"\n");
    lines.at
}

// What a printed line says. Other is kind_of's sixth: the definition has all six.
#[derive(Clone, Copy, PartialEq, Eq)]
pub enum Kind {
    Accepted,
    Refused,
    Bind,
    Fresh,
    Holds,
    Other,
}

// Tells by its word what a line says, so that whoever reads the lines again need not know how they are written.
pub fn kind_of(line: &[u8]) -> Kind
    ensures { result ≡ kind_of line.now }
{
    if line.starts_with(b"accepted ") {
        return Kind::Accepted;
    }
    if line.starts_with(b"refused ") {
        return Kind::Refused;
    }
    if line.starts_with(b"bind ") {
        return Kind::Bind;
    }
    if line.starts_with(b"fresh ") {
        return Kind::Fresh;
    }
    if line.starts_with(b"holds\n") {
        return Kind::Holds;
    }
    Kind::Other
}
