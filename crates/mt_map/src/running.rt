ghost use Rattle.std.specs.Prelude.{◌≡◌, ◌≢◌, ◌↔◌, ℕ, List, None, Some, IsTrue};
ghost use Rattle.std.specs.List.{All};
ghost use Rattle.mt_ports.specs.Causes.{StatusHasCause};
ghost use Rattle.mt_text.specs.Feed.{GaveTooMuch};
ghost use Rattle.mt_regs.specs.Agreement.{first_refusal};
ghost use Rattle.mt_regs.specs.Faults.{register_fault};
ghost use Rattle.mt_output.specs.Ports.{held, port};
ghost use Rattle.mt_map.specs.declared.asked.Asked.TheVariants.{Picture};
ghost use Rattle.mt_map.specs.Map.{CanBeDrawn, MapOf, Maps, TellsOutput, beside, others, status_of};

use crate::asked::{help_text, version_text};
use crate::picture::{Legend, picture_of_files, picture_text};
use crate::{Asked, Labels, Names};
use arrayvec::ArrayVec;
use mt_dump::{Dump, read_dump_from};
use mt_output::{bad_text_line, dump_refused_line, written, wrong_usage};
use mt_ports::{NoMemory, Sink, Source, Status};
use mt_regs::{Fault, RegFile, first_difference, first_refusal};
use mt_text::FeedFault;
use std::alloc::Global;

// The processor whose file is drawn beside processor 0's.
fn beside(d: &Dump) -> u32
    ensures { result ≡ beside d.now.files }
{
    d.is_dump(); // a fact for the proof
    match first_difference(d.files.as_slice()) {
        None => 1,
        Some((k, _)) => k,
    }
}

// Its file, if there is one.
fn others(d: &Dump, k: u32) -> ArrayVec<RegFile, 1>
    requires { k ≡ beside d.now.files }
    ensures { result.items ≡ others d.now }
{
    let mut others = ArrayVec::new();
    if let Some(other) = d.file_at(k) {
        others.push(other.same());
    }
    others
}

// Whether no register of a file is at fault by itself.
fn is_drawable(f: &RegFile) -> bool
    ensures { IsTrue result ↔ (register_fault f.now ≡ None) }
{
    match f.register_fault() {
        None => true,
        Some(_) => false,
    }
}

fn are_drawable(files: &[RegFile]) -> bool
    ensures { IsTrue result ↔ All (λ f. register_fault f ≡ None) files.now }
{
    files.iter().all(|f| is_drawable(f))
}

fn status_of(refusal: Option<(u32, Fault)>) -> Status
    ensures status { result ≡ status_of refusal }
    ensures written { result ≢ Status.WriteFault }
{
    match refusal {
        None => Status::Done,
        Some(_) => Status::Refused,
    }
}

// What its files are called, of which the second is that of processor `k`. Two sections alone can be two files.
fn names_of(d: &Dump, labels: Labels<'_>, k: u32) -> Names {
    if labels.are_files && d.files.len() == 2 {
        Names::Files
    } else {
        Names::Cpus(k)
    }
}

/// The picture of a dump. Fails only if an allocation fails.
pub fn picture_of(alloc: Global, d: &Dump, labels: Labels<'_>) -> Result<Vec<u8>, NoMemory>
    requires { CanBeDrawn d.now }
{
    d.is_dump(); // a fact for the proof
    let k = beside(d);
    let others = others(d, k);
    let f = d.first_file();
    let picture = picture_of_files(alloc, f, others.as_slice())?;
    let legend = Legend {
        title: labels.title,
        names: names_of(d, labels, k),
        version: d.version,
        refusal: first_refusal(d.files.as_slice()),
    };
    let text = picture_text(alloc, &legend, f, others.as_slice(), &picture)?;
    Ok(text)
}

fn can_be_drawn(d: &Dump) -> bool
    ensures { IsTrue result ↔ CanBeDrawn d.now }
{
    is_drawable(d.first_file()) && are_drawable(others(d, beside(d)).as_slice())
}

/// Writes the picture of a dump, or the line of the fault for which there is none.
pub fn draw<K: Sink>(alloc: Global, d: &Dump, labels: Labels<'_>, sink: &mut K) -> Status
    ensures tells { TellsOutput (MapOf d.now) (K.taken sink.old) (K.taken sink.new) result }
    ensures cause { StatusHasCause Status.WriteFault (K.faults sink.old) (K.faults sink.new) result }
{
    d.is_dump(); // a fact for the proof
    let refusal = first_refusal(d.files.as_slice());
    if can_be_drawn(d) {
        return match picture_of(alloc, d, labels) {
            Ok(text) => written(sink, text.as_slice(), status_of(refusal)),
            Err(NoMemory) => Status::NoMemory,
        };
    }
    match refusal {
        None => unreachable!(),
        Some((k, fault)) => {
            let line = dump_refused_line(d.version, k, &fault);
            written(sink, line.as_slice(), Status::Refused)
        }
    }
}

// Reads a dump to its end, and draws it.
fn draw_input<S: Source, K: Sink>(
    alloc: Global,
    labels: Labels<'_>,
    source: &mut S,
    sink: &mut K,
) -> Status
    ensures maps { (bytes : List ℕ) → S.left source.old ≡ Some bytes →
        Maps (Some Picture) (held bytes (S.left source.new)) (port K.taken sink.old sink.new) result }
    ensures read_fault { StatusHasCause Status.ReadFault (S.faults source.old) (S.faults source.new) result }
    ensures write_fault { StatusHasCause Status.WriteFault (K.faults sink.old) (K.faults sink.new) result }
    ensures too_long { (result ≡ Status.TooLong) ↔ GaveTooMuch (S.given source.old) (S.given source.new) }
{
    match read_dump_from(source) {
        Ok(Ok(dump)) => draw(alloc, &dump, labels, sink),
        Ok(Err(fault)) => written(sink, bad_text_line(&fault).as_slice(), Status::BadText),
        Err(FeedFault::ReadFault) => Status::ReadFault,
        Err(FeedFault::TooLong) => Status::TooLong,
    }
}

/// Does all that the program does, and returns its status. For a picture it reads a dump to its end, unless the source
/// fails or gives more than 16,777,216 bytes; then nothing is written. If the words ask for nothing it writes `usage`.
pub fn map<S: Source, K: Sink>(
    alloc: Global,
    asked: Option<Asked>,
    labels: Labels<'_>,
    source: &mut S,
    sink: &mut K,
) -> Status
    ensures maps { (bytes : List ℕ) → S.left source.old ≡ Some bytes →
        Maps asked (held bytes (S.left source.new)) (port K.taken sink.old sink.new) result }

    // Nothing is read, except for a picture.
    ensures unread { asked ≢ Some Picture → source.new ≡ source.old }

    // A port that failed did so once, and the status is its fault; at every other status none failed.
    ensures read_fault { StatusHasCause Status.ReadFault (S.faults source.old) (S.faults source.new) result }
    ensures write_fault { StatusHasCause Status.WriteFault (K.faults sink.old) (K.faults sink.new) result }
    ensures too_long { (result ≡ Status.TooLong) ↔ GaveTooMuch (S.given source.old) (S.given source.new) }
{
    match asked {
        None => wrong_usage(sink),
        Some(Asked::Help) => written(sink, help_text(), Status::Done),
        Some(Asked::Version) => written(sink, version_text(), Status::Done),
        Some(Asked::Picture) => draw_input(alloc, labels, source, sink),
    }
}
