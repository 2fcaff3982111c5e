// Compiles a static circuit: its file, the output file and, where the pairs are not to be chosen greedily, a pair file. The output
// file is written only where all is accepted; one line says what was written, or the refusal.
#![tactic(auto)]

ghost use Rattle.std.specs.Prelude.{◌≡◌, ◌≤◌, length, take, IfOk};
ghost use Rattle.records.specs.Refusals.{outcome_of};
ghost use Rattle.circuits.specs.Limits.{most_wires, deciding_bytes};
ghost use Rattle.table.specs.Starting.{started};
ghost use Rattle.pairs.specs.Listing.{deciding_list_bytes};
ghost use Rattle.writer.specs.Compiling.{compiled, Compiled};
ghost use Rattle.texts.specs.Listings.{longest_counts};
ghost use Rattle.compile.specs.Running.{chosen_list, wires_told, bytes_told, answer_line};

use circuits::Circuit;
use inputs::Reason;
use records::Refusal;
use std::env::{Env, FillError};
use std::rt::Files;
use std::{fs, io, str};
use writer::Counts;

// The arguments; the program's own name is the one before them.
const CIRCUIT: usize = 1;

const OUTPUT: usize = 2;

const PAIRS: usize = 3;

// Room for any path.
const PATH: usize = 4096;

// The system's number for a path that is longer.
const TOO_LONG: i32 = 36;

// What failed was told on standard error.
#[derive(Clone, Copy)]
struct Told;

// Says of a file, a pipe or an argument why it failed.
fn tell(rt: &impl Eprint, name: &str, e: io::Error) -> Told {
    let _ = eprintln!(rt; "{name}: {}", Reason(e));
    Told
}

// Whether there is such an argument.
fn is_given(rt: &impl Env, argument: usize) -> bool {
    !matches!(rt.arg(argument, &mut [0u8; 0]), Err(FillError::NotPresent))
}

// Why an argument is no path.
fn error_of(e: FillError) -> io::Error {
    match e {
        FillError::TooLong => io::Error::from_raw_os_error(TOO_LONG),
        FillError::NotPresent => io::Error::from(io::ErrorKind::InvalidInput),
    }
}

// The path that an argument is, in a lent buffer, or why there is none: paths are text here.
fn path_of<'a>(rt: &impl Env, argument: usize, path: &'a mut [u8]) -> io::Result<&'a str>
    ensures { IfOk result (λ name. length name.now ≤ length path.old) }
{
    let count = rt.arg(argument, path).map_err(error_of)?;
    str::from_utf8(&path[..count]).map_err(|_| io::Error::from(io::ErrorKind::InvalidFilename))
}

// Reads the file that an argument names until the buffer is full or the file ends, and gives how many bytes there are.
fn read_file(
    rt: &(impl Env + Files + Eprint),
    argument: usize,
    buffer: &mut [u8],
) -> Result<usize, Told>
    ensures { IfOk result (λ count. count ≤ length buffer.new) }
{
    let mut path = [0u8; PATH];
    let name = path_of(rt, argument, &mut path).map_err(|e| tell(rt, "argument", e))?;
    let mut file = fs::open(rt, name).map_err(|e| tell(rt, name, e))?;
    let input = inputs::fill(&mut file, buffer);
    input.whole.map_err(|e| tell(rt, name, e))?;
    Ok(input.count)
}

// Reads as many bytes of the circuit as decide, or more: none behind them changes what is compiled. This and `read_list` are two for
// their `requires`, which say how many that is.
fn read_circuit(rt: &(impl Env + Files + Eprint), buffer: &mut [u8]) -> Result<usize, Told>
    requires { deciding_bytes ≤ length buffer.old }
    ensures { IfOk result (λ count. count ≤ length buffer.new) }
{
    read_file(rt, CIRCUIT, buffer)
}

// The same of the pair list.
fn read_list(rt: &(impl Env + Files + Eprint), buffer: &mut [u8]) -> Result<usize, Told>
    requires { deciding_list_bytes ≤ length buffer.old }
    ensures { IfOk result (λ count. count ≤ length buffer.new) }
{
    read_file(rt, PAIRS, buffer)
}

// Writes bytes to the file that an argument names.
fn write_file(rt: &(impl Env + Files + Eprint), argument: usize, bytes: &[u8]) -> Result<(), Told> {
    let mut path = [0u8; PATH];
    let name = path_of(rt, argument, &mut path).map_err(|e| tell(rt, "argument", e))?;
    fs::write(rt, name, bytes).map_err(|e| tell(rt, name, e))
}

// The records of the pairs that are chosen greedily from a circuit's table, at the front of a buffer that has room for any list; none
// of a circuit that is refused.
fn choose_list(circuit: &[u8], list: &mut [u8]) -> usize
    requires { deciding_list_bytes ≤ length list.old }
    ensures { (result ≤ length list.new) × (take result list.new ≡ chosen_list (started circuit.now)) }
{
    let Ok(table) = table::start(circuit) else {
        return 0;
    };
    // Greedy refuses only a wrong width.
    let rounds = choosers::greedy(table).unwrap();
    lists::put_list(list, 0, rounds.list)
}

// The line of an answer, at the front of a buffer that has room for any.
fn line_of(line: &mut [u8], answer: Result<Counts, Refusal>) -> usize
    requires longest_counts_in_bounds { longest_counts ≤ length line.old }
    requires answer_bound { wires_told (outcome_of answer) ≤ most_wires }
    ensures { (result ≤ length line.new) × (take result line.new ≡ answer_line (outcome_of answer)) }
{
    match answer {
        Ok(counts) => {
            let qubits = counts.qubits as usize;
            let pairs = counts.pairs;
            texts::put_compiled(line, 0, qubits + pairs, qubits, pairs, counts.bytes)
        }
        Err(r) => texts::put_refusal(line, 0, r.cause.number(), r.place),
    }
}

// Prints the line of an answer.
fn print_answer(rt: &(impl Print + Eprint), answer: Result<Counts, Refusal>) -> Result<(), Told>
    requires { wires_told (outcome_of answer) ≤ most_wires }
{
    let mut line = [0u8; texts::LONGEST_COUNTS];
    let length = line_of(&mut line, answer);
    rt.write_all(&line[..length])
        .map_err(|e| tell(rt, "standard output", e))
}

// Compiles into a buffer that has room for any output: more room would change nothing.
fn compile_into(circuit: &[u8], list: &[u8], out: &mut [u8]) -> Result<Counts, Refusal>
    requires { deciding_bytes ≤ length out.old }
    ensures compiled { Compiled out.old (compiled circuit.now list.now deciding_bytes) (outcome_of result) out.new }
    ensures few { wires_told (outcome_of result) ≤ most_wires }
    ensures fits { bytes_told (outcome_of result) ≤ length out.new }
{
    writer::compile(circuit, list, out)
}

// Writes the output file where the circuit and the pairs are accepted.
fn write_output(
    rt: &(impl Env + Files + Eprint),
    answer: Result<Counts, Refusal>,
    out: &[u8],
) -> Result<(), Told>
    requires { bytes_told (outcome_of answer) ≤ length out.now }
{
    match answer {
        Ok(counts) => write_file(rt, OUTPUT, &out[..counts.bytes]),
        Err(_) => Ok(()),
    }
}

// Compiles a circuit with a pair list, and says what came of it once it is written.
fn compile(
    rt: &(impl Env + Files + Print + Eprint),
    circuit: &[u8],
    list: &[u8],
) -> Result<(), Told> {
    let mut out = [0u8; Circuit::DECIDING];
    let answer = compile_into(circuit, list, &mut out);
    write_output(rt, answer, &out)?;
    print_answer(rt, answer)
}

// Reads the files that are given, and compiles.
fn run(rt: &(impl Env + Files + Print + Eprint)) -> Result<(), Told> {
    let mut buffer = [0u8; Circuit::DECIDING];
    let length = read_circuit(rt, &mut buffer)?;
    let circuit = &buffer[..length];
    let mut list = [0u8; lists::DECIDING];
    let count = if is_given(rt, PAIRS) {
        read_list(rt, &mut list)?
    } else {
        choose_list(circuit, &mut list)
    };
    compile(rt, circuit, &list[..count])
}

fn main(rt: HostRuntime) {
    if is_given(&rt, OUTPUT) && !is_given(&rt, PAIRS + 1) {
        // What failed was told.
        let _ = run(&rt);
    } else {
        let _ = eprintln!(rt; "usage: compile CIRCUIT OUTPUT [PAIRS]");
    }
}
