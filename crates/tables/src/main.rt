// Prints tables of every operation over a grid of inputs: a line for each input, the answer behind its `=`. What is stored as
// its output comes from the Rust reference, so each check holds the library to the papers read a second time. Units are those of
// the calls: km/h, metres, per mille, hundredths of a second; millimetres, milliseconds, 120ths of a km/h.
// Takes: every operation. Gives: a program.
#![tactic(auto)]

mod grid;
mod models;
mod owns;
mod sheets;
mod tails;
mod text;
mod ties;
mod walks;

use grid::Place;
use std::io::{self, BufWriter, Write};

// What the lines of every query, and of every step, have behind their inputs.
const QUERIED: &str = "refusal release permitted mark W SBI EBI overlap_stretch ahead_stretch";

const STEPPED: &str = "refusal end stretch i least least_stretch";

// A table has as many lines as its grid has places.
fn print_table<W: Write, F: Fn(&mut W, Place) -> io::Result<()>>(
    out: &mut W,
    lines: usize,
    line: F,
) -> io::Result<()>
    requires { F.IsAlwaysCallable line }
{
    for k in 0..lines {
        line(out, Place(k))?;
    }
    Ok(())
}

fn print_models<W: Write>(out: &mut W) -> io::Result<()> {
    writeln!(out, "# ceilings V = refusal W SBI EBI")?;
    print_table(
        out,
        332,
        |out, at| models::limits_line(out, at, "ceilings", ceilings::ceilings),
    )?;
    writeln!(out, "# stored V = refusal W SBI EBI")?;
    print_table(
        out,
        332,
        |out, at| models::limits_line(out, at, "stored", ceilings_stored::stored),
    )?;
    writeln!(
        out,
        "# step freight EP BW L top V V0 i = refusal EBI SBI W P"
    )?;
    print_table(out, 12600, models::step_line)?;
    writeln!(
        out,
        "# row curve freight EP BW L top V0 i = refusal length distances"
    )?;
    print_table(out, 96, models::row_line)?;
    writeln!(out, "# ramp BW i V TM TR = refusal distance moment")?;
    print_table(out, 3024, models::ramp_line)?;
    print_table(out, 306, models::climb_line)
}

fn print_sheets<W: Write>(out: &mut W) -> io::Result<()> {
    write!(
        out,
        "# sheet start i place overlap end number = refusal length"
    )?;
    writeln!(
        out,
        " ; refusal start i ; refusal place overlap ; refusal end start i next"
    )?;
    print_table(out, 4320, sheets::sheet_line)?;
    writeln!(
        out,
        "# query freight EP BW L top TM TR i overlap signal head = {QUERIED}"
    )?;
    print_table(out, 8640, sheets::query_line)?;
    writeln!(out, "# tail L i overlap head = {QUERIED}")?;
    print_table(out, 560, tails::tail_line)
}

// The same with a train's own coefficients.
fn print_own<W: Write>(out: &mut W) -> io::Result<()> {
    let own = "dt h kr cr nc vc ki1 ki2 ki3 i1 i2";
    writeln!(out, "# own_step {own} V V0 i = refusal EBI SBI W P")?;
    print_table(out, 750, owns::own_step_line)?;
    writeln!(out, "# own_row {own} V0 i = refusal length distances")?;
    print_table(out, 50, owns::own_row_line)?;
    writeln!(
        out,
        "# own_ramp ki1 ki2 ki3 i1 i2 i V = refusal distance moment"
    )?;
    print_table(out, 198, owns::own_ramp_line)?;
    writeln!(out, "# own_query {own} i overlap head = {QUERIED}")?;
    print_table(out, 400, owns::own_query_line)
}

fn print_back<W: Write>(out: &mut W) -> io::Result<()> {
    writeln!(out, "# back place L i signal head step = {STEPPED}")?;
    print_table(out, 840, walks::back_line)?;
    writeln!(out, "# tie L i j k overlap head = {QUERIED}")?;
    print_table(out, 600, ties::tie_line)?;
    writeln!(out, "# tie_back L i j k head step = {STEPPED}")?;
    print_table(out, 512, ties::tie_back_line)
}

fn main(rt: HostRuntime) -> io::Result<()> {
    let out = &mut BufWriter::new(rt.alloc(), rt.stdout())?;
    print_models(out)?;
    print_sheets(out)?;
    print_own(out)?;
    print_back(out)?;
    // what a drop writes out may fail unseen
    out.flush()
}
