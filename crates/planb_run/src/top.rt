ghost use Rattle.std.specs.Prelude.{◌≡◌, option_map};
ghost use Rattle.planb_run.specs.Words.{texts};
ghost use Rattle.planb_run.specs.Report.{report, status, stop_status};
ghost use Rattle.planb_run.specs.Headline.{RefusesWords, ReadsSource, RunsAsReference, EndsEarly, HasCauses, IsComplete, Tells, TellsEnding};
ghost use Rattle.planb_run.specs.Stages.{Obeys};

use crate::command::read_words;
use crate::execute::execute;
use crate::load::load;
use crate::report::write_report;
use crate::{Ending, Reported, Stop};
use core_tree::Program;
use pb_io::{Files, OutsideFault, PutError, Sink};
use std::alloc::Global;

/// Does what the words of a command line ask, of which the first is the program's name: it reads the file, runs the
/// program with its arguments and budget of steps into `out`, flushes `out`, and writes and flushes the report of the
/// stop. The first stage that fails decides the stop, and the report is written in every case. A sink that refused a
/// call isn't used again, and where no run began nothing is done to `out`.
pub fn planb<F: Files, O: Sink, R: Sink>(
    alloc: Global,
    words: &[String],
    files: &mut F,
    out: &mut O,
    report: &mut R,
) -> Ending
    // Usage comes exactly where the words aren't a command; then nothing was done to the files and the output.
    ensures words { RefusesWords (texts words.now)
        (record { files = F.state files.old; out = O.state out.old })
        (record { files = F.state files.new; out = O.state out.new })
        result.stop result.steps }

    // After a refusal and a read fault the output is as it was, and no name but the file's is started.
    ensures source { ReadsSource (texts words.now)
        (record { files = F.state files.old; out = O.state out.old })
        (record { files = F.state files.new; out = O.state out.new })
        result.stop result.steps }

    // Output, ending and steps are those of the reference run.
    ensures run { RunsAsReference (texts words.now)
        (record { files = F.state files.old; out = O.state out.old })
        (record { files = F.state files.new; out = O.state out.new })
        result.stop result.steps }

    // What is printed, flushed and refused where memory runs out and where the output fails.
    ensures early_end { EndsEarly (texts words.now)
        (record { files = F.state files.old; out = O.state out.old })
        (record { files = F.state files.new; out = O.state out.new })
        result.stop result.steps }

    // The report is that of the stop and of the program that ran, or a prefix of it, and the status is that of both.
    ensures report { TellsEnding (texts words.now)
        (record { files = F.state files.old; out = O.state out.old })
        (record { files = F.state files.new; out = O.state out.new })
        (R.state report.old) (R.state report.new) result }

    // Each stop has its cause, and each fault its stop.
    ensures causes { HasCauses (texts words.now)
        (record { files = F.state files.old; out = O.state out.old })
        (record { files = F.state files.new; out = O.state out.new })
        result.stop result.steps }

    // No stop but the one that the file determines comes, unless memory ran out or the outside failed.
    ensures complete { IsComplete (texts words.now)
        (record { files = F.state files.old; out = O.state out.old })
        (record { files = F.state files.new; out = O.state out.new })
        result.stop result.steps }
{
    let performed = perform(alloc, words, files, out);
    let reported = tell(report, performed.program.as_ref(), &performed.stop);
    Ending {
        status: status(&performed.stop, reported),
        steps: performed.steps,
        stop: performed.stop,
        reported,
    }
}

// What was done before the report: the program that ran, where one did, why it stopped, and how many steps it took.
#[derive(Drop)]
struct Performed {
    program: Option<Program>,
    stop: Stop,
    steps: u64,
}

// The stages up to the report.
fn perform<F: Files, O: Sink>(
    alloc: Global,
    words: &[String],
    files: &mut F,
    out: &mut O,
) -> Performed
    ensures { Obeys (texts words.now)
        (record { files = F.state files.old; out = O.state out.old })
        (record { files = F.state files.new; out = O.state out.new })
        result.program result.stop result.steps }
{
    let Some(command) = read_words(words) else {
        return Performed {
            program: None,
            stop: Stop::Usage,
            steps: 0,
        };
    };
    let program = match load(alloc, files, command.file) {
        Ok(program) => program,
        Err(stop) => return Performed {
            program: None,
            stop,
            steps: 0,
        },
    };
    let executed = execute(alloc, &program, command.arguments, command.steps, out);
    Performed {
        program: Some(program),
        stop: executed.stop,
        steps: executed.steps,
    }
}

// Writes and flushes the report.
fn tell<R: Sink>(sink: &mut R, program: Option<&Program>, stop: &Stop) -> Reported
    ensures { Tells (R.state sink.old) (R.state sink.new)
        (report (option_map (λ p. p.now) program.entry) stop.now) result }
{
    match write_report(sink, program, stop) {
        Ok(()) => match sink.flush() {
            Ok(()) => Reported::Whole,
            Err(OutsideFault::Failed) => Reported::WriteFault,
            Err(OutsideFault::OutOfMemory) => Reported::OutOfMemory,
        },
        Err(PutError::WriteFault) => Reported::WriteFault,
        Err(PutError::OutOfMemory) => Reported::OutOfMemory,
    }
}

// The status of a stop whose report went so.
fn status(stop: &Stop, reported: Reported) -> u8
    ensures { result ≡ status stop.now reported }
{
    match reported {
        Reported::Whole => stop_status(stop),
        Reported::WriteFault => 7,
        Reported::OutOfMemory => 6,
    }
}

fn stop_status(stop: &Stop) -> u8
    ensures { result ≡ stop_status stop.now }
{
    match stop {
        Stop::Done => 0,
        Stop::Uncaught { .. } => 1,
        Stop::Usage => 2,
        Stop::Refused(_) => 3,
        Stop::StepsSpent(_) => 4,
        Stop::OutOfMemory => 6,
        Stop::ReadFault | Stop::WriteFault => 7,
        Stop::Full(_) => 8,
    }
}
