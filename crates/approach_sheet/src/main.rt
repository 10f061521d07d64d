// Document 01's program: reads a line sheet on standard input, and prints how one train may approach each of its signals.
// Takes: `sheet_fields`, `query`. Gives: a program.
#![tactic(auto)]

ghost use Rattle.std.specs.Prelude.{◌≡◌, ◌≤◌, length, IfOk};
ghost use Rattle.train.specs.Coefficients.{first};
ghost use Rattle.query.specs.Answer.{QueryAnswers};
ghost use Rattle.approach_sheet.specs.Example.{example_train};

use query::Answer;
use sheet_fields::Accepted;
use std::io::{self, Read};
use train::{BrakeType, Kmh, Metre, Train};

// A passenger train with its electropneumatic brake working.
fn example_train() -> Train
    ensures { result ≡ example_train }
{
    Train {
        brake: BrakeType::Passenger,
        electropneumatic: true,
        weight: 100,
        length: Metre(200),
        top: Kmh(100),
    }
}

// Its answer with the first values, TM 2 s, TR 4 s and the head at 0.
fn answer(s: &[u8], signal: u32) -> Answer
    ensures { QueryAnswers first example_train 200 400 s.now signal 0 result s.now }
{
    let k = train::first_values();
    query::query(k, example_train(), 200, 400, s, signal, Metre(0))
}

// A signal's line. The answer is the record that C reads: numbers for refusal and mark.
fn print_line(rt: &impl Print, signal: u32, a: Answer) -> io::Result<()> {
    if a.refusal > 0 {
        return println!(rt; "{signal} refused {}", a.refusal);
    }
    let mark = if a.mark == 1 { "curve" } else { "release" };
    print!(rt; "{signal} {} {} {mark}", a.release.0, a.permitted.0)?;
    println!(rt; " {} {} {}", a.w.0, a.sbi.0, a.ebi.0)
}

// A line for each signal.
fn print_signals(rt: &impl Print, sheet: Accepted<'_>) -> io::Result<()> {
    for k in 0..sheet.signals() {
        print_line(rt, k, answer(sheet.bytes, k))?;
    }
    Ok(())
}

fn print_sheet(rt: &impl Print, bytes: &[u8]) -> io::Result<()> {
    match Accepted::open(bytes) {
        Ok(sheet) => print_signals(rt, sheet),
        Err(refusal) => println!(rt; "refused {}", refusal.number()),
    }
}

// Reads until the buffer is full or the input ends, and returns how many bytes that gave: a pipe may give fewer at a time. Not std's
// `read_to_end`, which takes memory of the heap.
fn read_full<R: Read>(input: &mut R, buf: &mut [u8]) -> io::Result<usize>
    ensures { IfOk result (λ n. n ≤ length buf.new) }
{
    let mut done = 0;
    while done < buf.len() {
        let n = input.read(&mut buf[done..])?;
        if n == 0 {
            break;
        }
        done += n;
    }
    Ok(done)
}

fn main(rt: HostRuntime) -> io::Result<()> {
    // the largest sheet, and a byte more for one that is too long
    let mut lent = [0u8; 3477];
    let n = read_full(&mut rt.stdin(), &mut lent)?;
    print_sheet(&rt, &lent[..n])
}
