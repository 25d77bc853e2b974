// The command that runs graphs of its own on tokens that it makes.
ghost use Rattle.std.specs.Prelude.{◌≡◌, ◌⊎◌, ◌<◌, ◌≤◌, [], ◌∷◌, length, map, Err, IfErr, IfOk, OnOk};
ghost use Rattle.std.specs.Arc.{arc_value};
ghost use Rattle.kernel_gate.specs.Signed.{signature_view};
ghost use Rattle.kernel_gate.specs.Table.{the_signatures};
ghost use Rattle.param_resolver.specs.EarlyCheck.{early_faults};
ghost use Rattle.pisdf_meaning.specs.Run.{top_needs};
ghost use Rattle.quiescent_driver.specs.Carrying.{Suits};
ghost use Rattle.quiescent_driver.specs.Iterated.{Gives};
ghost use Rattle.pisdf_program.specs.Soak.{soak_file, soak_iterations, soak_streams};
ghost use Rattle.pisdf_program.specs.SoakEnd.{EndsSoak, IsSoakStatus, LacksNothing, total_row};
ghost use Rattle.pisdf_program.specs.Loaded.{AreGood, Settles};
ghost use Rattle.pisdf_program.specs.Result.{Soaks, read_graphs, told};
ghost use Rattle.quiescent_driver.specs.Stepped.{StopsAt};
ghost use Rattle.quiescent_driver.specs.Streams.{rest_of};
ghost use Rattle.pisdf_program.specs.Worked.{IsThere, TellsSoak, Works};
ghost use Rattle.pisdf_program.specs.Words.{greatest_number};
ghost use Rattle.quiescent_driver.specs.Given.{IsTopState};

use crate::load::{graphs_in, parse_graphs};
use crate::soak_tokens::{soak_iterations, soak_part};
use crate::soak_totals::{Total, total_row, with_tokens, y_tokens};
use crate::status::Status;
use crate::stop::stop_status;
use board_journal::Journal;
use graph_writer::write;
use job_compiler::kept;
use kernel_gate::{Gate, Signature};
use outer_world::{Sink, put_text};
use pisdf_meaning::{Delays, Iteration, first_delays};
use pisdf_model::Graphs;
use quiescent_driver::{Carried, Stop, run_iteration_by};
use std::alloc::Global;
use std::sync::{Arc, Wait};
use std::thread::Threads;

/// The file of its graphs.
const SOAK_FILE: &str =
    "{\"pisdf\":3,\"top\":\"g\",\"graphs\":[{\"name\":\"g\",\"params\":[{\"name\":\"n\",\"kind\":\"set\",\"low\":1,\"high\":8}],\"inputs\":[{\"name\":\"k\",\"rate\":\"1\"},{\"name\":\"x\",\"rate\":\"64\"}],\"outputs\":[{\"name\":\"y\",\"rate\":\"8\"}],\"actors\":[{\"name\":\"c\",\"kind\":\"config\",\"kernel\":\"read_param\",\"args\":[],\"ins\":[{\"name\":\"i\"}],\"outs\":[],\"sets\":[\"n\"]},{\"name\":\"h\",\"kind\":\"graph\",\"graph\":\"blk\",\"args\":[\"n\"]}],\"fifos\":[{\"from\":\"k\",\"to\":\"c.i\"},{\"from\":\"x\",\"to\":\"h.i\"},{\"from\":\"h.o\",\"to\":\"y\"}],\"exports\":[]},{\"name\":\"blk\",\"params\":[{\"name\":\"n\",\"kind\":\"in\",\"low\":1,\"high\":8}],\"inputs\":[{\"name\":\"i\",\"rate\":\"n\"}],\"outputs\":[{\"name\":\"o\",\"rate\":\"1\"}],\"actors\":[{\"name\":\"s\",\"kind\":\"kernel\",\"kernel\":\"sum\",\"args\":[],\"ins\":[{\"name\":\"i\",\"rate\":\"n\"}],\"outs\":[{\"name\":\"o\",\"rate\":\"1\"}]},{\"name\":\"m\",\"kind\":\"kernel\",\"kernel\":\"gain\",\"args\":[\"n\"],\"ins\":[{\"name\":\"i\",\"rate\":\"1\"}],\"outs\":[{\"name\":\"o\",\"rate\":\"1\"}]}],\"fifos\":[{\"from\":\"i\",\"to\":\"s.i\"},{\"from\":\"s.o\",\"to\":\"m.i\"},{\"from\":\"m.o\",\"to\":\"o\"}],\"exports\":[]}]}";

/// Its graphs: read from their file, written anew, and read again.
fn soak_graphs(alloc: Global, signatures: &[Signature]) -> Result<Graphs, Status>
    requires { map signature_view signatures.now ≡ the_signatures }
    ensures settles { Settles (read_graphs soak_file) result }
    ensures good { IfOk result AreGood }
    ensures memory { IfErr result (λ s. s ≡ Status.WantOfMemory) }
{
    let graphs = match graphs_in(alloc, SOAK_FILE.as_bytes(), signatures) {
        Ok(graphs) => graphs,
        Err(status) => return Err(status),
    };
    let Ok(file) = write(alloc, &graphs, signatures) else {
        return Err(Status::WantOfMemory);
    };
    parse_graphs(alloc, file.as_slice(), signatures)
}

/// Makes one iteration, whose part of the streams is made here.
fn soak_iteration<K: Gate + Sync, R: Threads + Wait + Sync>(
    rt: &R,
    alloc: Global,
    graphs: &Arc<Graphs>,
    number: u32,
    iteration: u32,
    workers: u32,
    carried: &mut Carried,
    delays: &mut Delays,
    gate: &K,
) -> Result<Iteration, Stop>
    requires good { AreGood (arc_value graphs.now) }
    requires kernels { K.kernels gate.now ≡ the_signatures }
    requires number { number ≤ greatest_number }
    requires iteration { iteration < soak_iterations number }
    requires needs { top_needs (arc_value graphs.now) ≡ 1 ∷ 64 ∷ [] }
    requires sound { early_faults (arc_value graphs.now).graphs (arc_value graphs.now).top [] ≡ [] }
    requires state { IsTopState (arc_value graphs.now) delays.old.lists }
    requires some { 0 < workers }
    requires most { workers ≤ 16 }
    requires levels { Suits (arc_value graphs.now) carried.old }
    ensures gives { IfOk result (λ i. Gives (arc_value graphs.now) delays.old.lists (rest_of iteration (top_needs (arc_value graphs.now)) (soak_streams number)) i delays.new.lists) }
    ensures stops { IfErr result (StopsAt (arc_value graphs.now) delays.old.lists (rest_of iteration (top_needs (arc_value graphs.now)) (soak_streams number))) }
    ensures enough { IfErr result LacksNothing }
    ensures state { OnOk result (IsTopState (arc_value graphs.now) delays.new.lists) }
    ensures levels { Suits (arc_value graphs.now) carried.new }
{
    let Ok(ins) = soak_part(alloc, number, iteration) else {
        return Err(Stop::Memory);
    };
    match run_iteration_by(
        rt,
        alloc,
        graphs,
        delays,
        ins.as_slice(),
        workers,
        carried,
        gate,
        Journal::unreadable(),
    ) {
        Ok((iteration, _journal)) => Ok(iteration),
        Err(fault) => Err(Stop::from(fault)),
    }
}

/// Runs the iterations of a soak run.
fn run_soak<K: Gate + Sync, R: Threads + Wait + Sync>(
    rt: &R,
    alloc: Global,
    graphs: &Arc<Graphs>,
    number: u32,
    workers: u32,
    carried: &mut Carried,
    gate: &K,
) -> Result<Total, Stop>
    requires good { AreGood (arc_value graphs.now) }
    requires kernels { K.kernels gate.now ≡ the_signatures }
    requires number { number ≤ greatest_number }
    requires needs { top_needs (arc_value graphs.now) ≡ 1 ∷ 64 ∷ [] }
    requires sound { early_faults (arc_value graphs.now).graphs (arc_value graphs.now).top [] ≡ [] }
    requires some { 0 < workers }
    requires most { workers ≤ 16 }
    requires levels { Suits (arc_value graphs.now) carried.old }
    ensures ends { EndsSoak (arc_value graphs.now) number result }
    ensures enough { IfErr result LacksNothing }
{
    let Ok(mut delays) = first_delays(alloc, graphs) else {
        return Err(Stop::Memory);
    };
    let mut total = Total { count: 0, sum: 0 };
    for place in 0..soak_iterations(number) {
        let iteration = match soak_iteration(
            rt,
            alloc,
            graphs,
            number,
            place,
            workers,
            carried,
            &mut delays,
            gate,
        ) {
            Ok(iteration) => iteration,
            Err(stop) => return Err(stop),
        };
        let Some(more) = with_tokens(total, y_tokens(&iteration)) else {
            return Err(Stop::Memory);
        };
        total = more;
    }
    Ok(total)
}

/// Puts the row of a soak run that is done, in one put.
fn put_total<O: Sink>(
    alloc: Global,
    number: u32,
    total: Total,
    out: &mut O,
) -> Result<String, Status>
    ensures works { Works (λ o. o ≡ told (total_row number total)) (O.written out.old) (O.written out.new) (O.faults out.old) (O.faults out.new) result }
    ensures fault { IfErr result (λ s. (s ≡ Status.WantOfMemory) ⊎ (s ≡ Status.WriteFault)) }
{
    let Ok(row) = total_row(alloc, number, total) else {
        return Err(Status::WantOfMemory);
    };
    match put_text(out, row.as_bytes()) {
        Ok(()) => Ok(String::new(alloc)),
        Err(_) => Err(Status::WriteFault),
    }
}

/// Puts the row of a soak run, or answers why it isn't done.
fn tell_soak<O: Sink>(
    alloc: Global,
    graphs: &Graphs,
    number: u32,
    end: Result<Total, Stop>,
    out: &mut O,
) -> Result<String, Status>
    requires there { graphs.now.top < length graphs.now.graphs }
    requires enough { IfErr end LacksNothing }
    ensures works { Works (TellsSoak graphs.now number end) (O.written out.old) (O.written out.new) (O.faults out.old) (O.faults out.new) result }
    ensures memory { end ≡ Err Stop.Memory → result ≡ Err Status.WantOfMemory }
    ensures answers { IfErr result IsSoakStatus }
{
    match end {
        Ok(total) => put_total(alloc, number, total, out),
        Err(stop) => Err(stop_status(alloc, graphs, stop)),
    }
}

/// Makes the soak run of a number by so many workers, and puts one row that tells of it. The answer is no text for standard error,
/// or a status.
pub(crate) fn soak<O: Sink, K: Gate + Sync, R: Threads + Wait + Sync>(
    rt: &R,
    alloc: Global,
    number: u32,
    workers: u32,
    out: &mut O,
    gate: &K,
) -> Result<String, Status>
    requires kernels { K.kernels gate.now ≡ the_signatures }
    requires number { number ≤ greatest_number }
    requires some { 0 < workers }
    requires most { workers ≤ 16 }
    ensures works { Works (Soaks number) (O.written out.old) (O.written out.new) (O.faults out.old) (O.faults out.new) result }
    ensures there { IsThere (Unit {0}) (Soaks number) result }
    ensures answers { IfErr result IsSoakStatus }
{
    let graphs = match soak_graphs(alloc, gate.signatures()) {
        Ok(graphs) => graphs,
        Err(status) => return Err(status),
    };
    let Ok(graphs) = Arc::new(alloc, graphs) else {
        return Err(Status::WantOfMemory);
    };
    let Ok(kept) = kept(alloc) else {
        return Err(Status::WantOfMemory);
    };
    let mut carried = Carried::new(Some(kept));
    let end = run_soak(rt, alloc, &graphs, number, workers, &mut carried, gate);
    tell_soak(alloc, &graphs, number, end, out)
}
