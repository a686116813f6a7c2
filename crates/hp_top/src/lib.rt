//! The run of a script, from the bytes read to the bytes written.
#![tactic(auto)]

ghost use Rattle.std.specs.Prelude.{◌≡◌, ℕ, [], map, string_bytes};
ghost use Rattle.hp_top.specs.Run.{IsRightCall};
ghost use Rattle.hp_top.specs.Summary.{IsSampleWords};
ghost use Rattle.hp_top.specs.declared.status.Status.TheVariants.{WordsRefused};

mod answers;
mod fields;
mod sample;
mod status;
mod summary;
mod tally;
mod writing;

use answers::answer_script;
use hp_io::{ReadEnd, Sink, Source, read_all};
use hp_script::MAX_BYTES;
use sample::{answer_sample, sample_number};
pub use status::Status;
use std::alloc::Global;

/// Runs a script, and writes its answers to `out`.
///
/// `words` are those of the command line behind the program's name. Without words the script is what `src` gives. With
/// `sample` and a number from 0 to 9999, in decimal without leading zeros, it is the sample script of that number; then
/// nothing is read, and four lines are written: how many line feeds the script has, how many answers there are, how many
/// of them are limits, and how many bytes their texts have. Any other words are refused, and nothing is read or written.
/// The clause `right` says what is written by each status, and when each status comes.
pub fn run<S: Source, T: Sink>(alloc: Global, words: &[String], src: &mut S, out: &mut T) -> Status
    ensures right { IsRightCall (record {
      words = map string_bytes words.now;
      left_before = S.left src.old;
      left_after = S.left src.new;
      read_faults_before = S.faults src.old;
      read_faults_after = S.faults src.new;
      written_before = T.written out.old;
      written_after = T.written out.new;
      write_faults_before = T.faults out.old;
      write_faults_after = T.faults out.new;
      status = result;
    }) }
    ensures nothing_read { result ≡ WordsRefused → src.new ≡ src.old }
    ensures nothing_written { result ≡ WordsRefused → out.new ≡ out.old }
    ensures sample_reads_nothing { (k : ℕ) → IsSampleWords (map string_bytes words.now) k → src.new ≡ src.old }
{
    if words.is_empty() {
        return run_script(alloc, src, out);
    }
    match sample_number(words) {
        Some(k) => answer_sample(alloc, k, out),
        None => Status::WordsRefused,
    }
}

/// Runs the script that `src` gives, and writes its answers to `out`.
fn run_script<S: Source, T: Sink>(alloc: Global, src: &mut S, out: &mut T) -> Status
    ensures right { IsRightCall (record {
      words = [];
      left_before = S.left src.old;
      left_after = S.left src.new;
      read_faults_before = S.faults src.old;
      read_faults_after = S.faults src.new;
      written_before = T.written out.old;
      written_after = T.written out.new;
      write_faults_before = T.faults out.old;
      write_faults_after = T.faults out.new;
      status = result;
    }) }
{
    match read_all(alloc, src, MAX_BYTES) {
        Ok(script) => answer_script(alloc, &script, out),
        Err(ReadEnd::Fault) => Status::ReadFault,
        Err(ReadEnd::TooLong) => Status::TooLong,
        Err(ReadEnd::Memory) => Status::OutOfMemory,
    }
}
