//! The words of the program, and what each does.

ghost use Rattle.std.specs.Prelude.{◌≡◌, ◌<◌, map, string_bytes, length, IsErr, MatchResult};
ghost use Rattle.row_store.specs.ThreeFiles.{CountsNoFault};
ghost use Rattle.mail_server.specs.declared.status.Status.TheVariants.{Done, NoMemory};
ghost use Rattle.mail_server.specs.Does.{EndsRun};
ghost use Rattle.mail_server.specs.Links.{RunsLinks};
ghost use Rattle.mail_server.specs.Outside.{EndsWriting, outside, tells_of};
ghost use Rattle.mail_server.specs.Run.{AnswersAt, limit_of};
ghost use Rattle.mail_server.specs.declared.words.Task.TheVariants.{Canon};
ghost use Rattle.mail_server.specs.Texts.{AnswersText, LeavesText};
ghost use Rattle.mail_server.specs.Words.{asked_by};

use crate::answer::{Answer, end_with};
use crate::canonical::answer_message;
use crate::scripted::answer_script;
use crate::serving_links::serve_links_from_files;
use crate::status::Status;
use crate::stores::{list_tables, make_store};
use crate::streams::{ReadFailure, read_all};
use crate::users::add_user_to_files;
use crate::words::{Command, Task, read_words};
use disk_model::{Disk, Files};
use port_model::{Clock, Ports, Sink, Source};
use std::alloc::{AllocError, Global};

/// Runs a command of the program, and answers the status that the process ends with, and the files.
///
/// `script` reads a script from `source`, loads the store that the files hold, serves the sessions of the script from it in
/// rounds over its events, and writes what each session was sent to `sink`, as lines in the form of `print_session`. A script
/// with a bad line, or with more than 67,108,864 bytes, is answered with one line that says so, and nothing is done.
///
/// `canon` reads a message from `source`, takes one reading of the clock, and writes the canonical text of the message. It
/// needs no store, and the message goes through no rows. Bytes that are no message are written as an attachment of a message
/// that says why, which arrives at the moment of the reading. A message with more than 33,554,432 bytes is refused with one
/// line.
///
/// `init` makes an empty store in the files, unless they hold a store, which is refused with one line.
///
/// `adduser` with a name and a password adds a user, who has an INBOX, to the store that the files hold. A name is 1 to 64 bytes of
/// `a` to `z`, `0` to `9`, `.`, `_` and `-`; a password is 1 to 128 bytes of printed ASCII without spaces. One line refuses another
/// name, another password, a name that is taken, and a user for whom there is no room.
///
/// `tables` writes a line for each row that the store's files hold, tables by their numbers and rows by their keys.
///
/// `serve` with a number of rounds and of two ports loads the store that the files hold, and serves the sessions of the links that
/// come by `ports` from it, in exactly so many rounds. The rounds are 1 to 1,000,000,000,000, and the ports, which the caller has bound
/// (`serve_ports`), 1 to 65,535. What the last round answers stays unsent.
///
/// The status is 0 where the run is done, 2 where the words are none of these, 3 where memory was refused, 4 where the source
/// failed, 5 where the sink failed, 6 where a disk failed, 7 where the files hold no store, 8 where what is asked for is refused,
/// 9 where the script is bad, and 10 where listening failed.
///
/// Time and memory are in proportion to the text, which is held whole, or to the first log.
pub fn run<S: Source, K: Sink, D: Disk, P: Ports, C: Clock>(
    alloc: Global,
    words: &[String],
    source: &mut S,
    sink: &mut K,
    files: Files<D>,
    ports: &mut P,
    clock: &mut C,
) -> (u8, Files<D>)
    // What the words ask for is done, and ends with a status of theirs, which comes only from its cause: each word has its table.
    ensures does { EndsRun (tells_of S.left S.faults K.written K.faults C.readings) D.told (asked_by (map (λ word. string_bytes word) words.now)) result.0
        (outside source.old sink.old clock.old) (outside source.new sink.new clock.new) files result.1 }

    // No word but `serve` uses the links.
    ensures links { RunsLinks P.history P.listen_faults D.told (asked_by (map (λ word. string_bytes word) words.now)) result.0 ports.old ports.new files result.1 }
{
    let Some(command) = read_words(words) else {
        return (Status::Usage.code(), files);
    };
    match command {
        Command::OfText(task) => {
            let (status, files) = run_task(alloc, task, source, sink, files, clock);
            (status.code(), files)
        }
        Command::Init => {
            let (status, files) = make_store(alloc, sink, files);
            (status.code(), files)
        }
        Command::Tables => {
            let (status, files) = list_tables(alloc, sink, files);
            (status.code(), files)
        }
        Command::AddUser(name, password) => {
            let (status, files) = add_user_to_files(alloc, name, password, sink, files);
            (status.code(), files)
        }
        Command::Serve(serve) => {
            let (status, files) = serve_links_from_files(alloc, serve.rounds, ports, files);
            (status.code(), files)
        }
    }
}

/// Does what the text of the source asks for.
fn run_task<S: Source, K: Sink, D: Disk, C: Clock>(
    alloc: Global,
    task: Task,
    source: &mut S,
    sink: &mut K,
    files: Files<D>,
    clock: &mut C,
) -> (Status, Files<D>)
    ensures { AnswersText (tells_of S.left S.faults K.written K.faults C.readings) D.told task result.0
        (outside source.old sink.old clock.old) (outside source.new sink.new clock.new) files result.1 }
{
    match read_all(alloc, source, task.limit()) {
        Ok(text) => {
            let (answer, files) = answer_text(alloc, task, &text, files, clock);
            (write_answer(sink, answer), files)
        }
        Err(ReadFailure::Fault) => (Status::ReadFault, files),
        Err(ReadFailure::NoMemory) => (Status::NoMemory, files),
    }
}

/// What a text has a run write.
fn answer_text<D: Disk, C: Clock>(
    alloc: Global,
    task: Task,
    text: &[u8],
    files: Files<D>,
    clock: &mut C,
) -> (Result<Answer, AllocError>, Files<D>)
    ensures answers { AnswersAt C.readings D.told task text.now result.0 clock.old clock.new files result.1 }
    ensures leaves { LeavesText D.told task text.now files result.1 }
    ensures long { limit_of task < length text.now → result.1 ≡ files }
    ensures quiet { IsErr result.0 → CountsNoFault D.told files result.1 }
    ensures canon { task ≡ Canon → result.1 ≡ files }
{
    match task {
        Task::Script => answer_script(alloc, text, files),
        Task::Canon => {
            let now = clock.now();
            (answer_message(alloc, text, now), files)
        }
    }
}

/// Writes an answer, unless memory for it was refused, and answers how the run ends.
fn write_answer<K: Sink>(sink: &mut K, answer: Result<Answer, AllocError>) -> Status
    ensures { MatchResult answer (λ answer. EndsWriting K.written K.faults answer.status answer.lines.items result sink.old sink.new)
        (λ _. (result ≡ NoMemory) × (sink.new ≡ sink.old)) }
{
    match answer {
        Ok(answer) => end_with(sink, answer.status, &answer.lines),
        Err(AllocError) => Status::NoMemory,
    }
}
