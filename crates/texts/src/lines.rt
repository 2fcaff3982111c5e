// The line of a record at its place: the place, the name of the kind, the operands and the angle's bytes.
ghost use Rattle.std.specs.Prelude.{◌≡◌, ◌+◌, ◌≤◌, length};
ghost use Rattle.writing.specs.Writing.{Placed, Written};
ghost use Rattle.texts.specs.Lines.{name_of, instruction_name, spaced, angle_text, line_of};
ghost use Rattle.texts.specs.Parts.{instruction_parts, parts_of};
ghost use Rattle.texts.specs.Room.{spaced_room, angle_room};

use crate::drafts::Draft;
use records::{Instruction, Record};

// Room for the longest line.
const LONGEST_LINE: usize = 85;

// Where the numbers behind the name begin and end among a record's bytes: a gate's kind is one of them, and what is
// behind them is the angle.
#[derive(Clone, Copy)]
struct Parts {
    from: usize,
    stop: usize,
}

fn instruction_parts(i: Instruction) -> Parts
    ensures { result ≡ instruction_parts i }
{
    match i {
        Instruction::Reset(_) => Parts { from: 1, stop: 2 },
        Instruction::Measurement(_, _) => Parts { from: 1, stop: 3 },
        Instruction::Gate(_, _) | Instruction::AngledGate(_, _, _) => Parts { from: 0, stop: 2 },
        Instruction::TwoLineGate(_, _, _) | Instruction::AngledTwoLineGate(_, _, _, _) => Parts {
            from: 0,
            stop: 3,
        },
    }
}

fn record_parts(r: Record) -> Parts
    ensures { result ≡ parts_of r }
{
    match r {
        Record::StaticWidth(_) => Parts { from: 1, stop: 2 },
        Record::DynamicWidth(_, _) => Parts { from: 1, stop: 3 },
        Record::Step(i) => instruction_parts(i),
        Record::Reuse(_, _) => Parts { from: 1, stop: 3 },
    }
}

fn instruction_name(i: Instruction) -> &'static [u8]
    ensures { result.now ≡ instruction_name i }
{
    match i {
        Instruction::Reset(_) => b" reset",
        Instruction::Measurement(_, _) => b" measurement",
        Instruction::Gate(_, _)
        | Instruction::AngledGate(_, _, _)
        | Instruction::TwoLineGate(_, _, _)
        | Instruction::AngledTwoLineGate(_, _, _, _) => b" gate",
    }
}

fn name_of(r: Record) -> &'static [u8]
    ensures { result.now ≡ name_of r }
{
    match r {
        Record::StaticWidth(_) => b" static width",
        Record::DynamicWidth(_, _) => b" dynamic width",
        Record::Step(i) => instruction_name(i),
        Record::Reuse(_, _) => b" reuse pair",
    }
}

// Numbers, each behind a space.
fn push_numbers(line: &mut Draft<LONGEST_LINE>, numbers: &[u8])
    requires { line.old.length + spaced_room numbers.now ≤ length line.old.bytes }
    ensures { Written line.old.bytes line.old.length (spaced_room numbers.now) (spaced numbers.now) line.new.bytes line.new.length }
{
    for number in numbers {
        line.push(b" ");
        line.push_number(*number as usize);
    }
}

// An angle's bytes behind its word; nothing where there is no angle.
fn push_angle(line: &mut Draft<LONGEST_LINE>, angle: &[u8])
    requires { line.old.length + angle_room angle.now ≤ length line.old.bytes }
    ensures { Written line.old.bytes line.old.length (angle_room angle.now) (angle_text angle.now) line.new.bytes line.new.length }
{
    if !angle.is_empty() {
        line.push(b" angle");
        push_numbers(line, angle);
    }
}

// Puts the line of a record at a place into a buffer as `put_bytes` puts bytes.
pub fn put_line(out: &mut [u8], at: usize, place: usize, r: Record) -> usize
    ensures { Placed out.old at (line_of place r) out.new result }
{
    let encoded = records::encode(r);
    let parts = record_parts(r);
    let mut line = Draft::<LONGEST_LINE>::new();
    line.push_number(place);
    line.push(name_of(r));
    push_numbers(&mut line, &encoded.bytes[parts.from..parts.stop]);
    push_angle(&mut line, &encoded.bytes[parts.stop..encoded.length]);
    line.push(b"\n");
    line.put(out, at)
}
