ghost use Rattle.std.specs.Prelude.{◌≡◌, ◌+◌, ◌^◌, ◌<◌, ◌≤◌, ◌++◌, codes, length, map, take, drop};
ghost use Rattle.std.specs.List.{flat_map};
ghost use Rattle.wb_base.specs.Streams.{HasCause, Puts};
ghost use Rattle.wb_base.specs.Lines.{line};
ghost use Rattle.braid_word.specs.Notation.{next_text, word_field};
ghost use Rattle.braid_word.specs.declared.TheConstants.{LETTERS_AT_ONCE};
ghost use Rattle.wb_base.specs.declared.TheConstants.{MAX_CHUNK};
ghost use Rattle.trace_format.specs.declared.TheConstants.{STEPS_AT_ONCE};
ghost use Rattle.trace_format.specs.TraceText.{words, step_line, handle_step, handle_line, verdict_word, head_text, term_head_text, tail_text, trace_text, term_trace_text};

use crate::STEPS_AT_ONCE;
use crate::verdict::Verdict;
use braid_word::{Account, LETTERS_AT_ONCE, Letter, push_next_letter, put_word_line};
use wb_base::{Chunk, Failed, Sink, give_all, put_line};

// Gives a keyword, with the space behind it, and the text of a term as a line.
fn put_term_line<K: Sink>(sink: &mut K, keyword: &[u8], term: &[u8]) -> Result<(), Failed>
    ensures took { Puts (K.taken sink.old) (K.taken sink.new) result (line (keyword.now ++ term.now)) }
    ensures cause { HasCause (K.faults sink.old) (K.faults sink.new) result }
    ensures waits { K.waiting sink.new ≤ K.waiting sink.old + length (line (keyword.now ++ term.now)) }
{
    give_all(sink, keyword)?;
    put_line(sink, term)
}

// Adds the line of a step on the handle at two places, counted from 1, to a chunk: at most 44 bytes.
fn push_step(text: &mut Chunk, step: (u32, u32))
    requires room { length text.old + 44 ≤ MAX_CHUNK }
    ensures text { text.new ≡ text.old ++ step_line (handle_step step) }
    ensures size { length text.new ≤ length text.old + 44 }
{
    let (start, end) = step;
    text.push(b"h ");
    text.push_number(u64::from(start));
    text.push(b" ");
    text.push_number(u64::from(end));
    text.push(b"\n");
}

// Gives the lines of a few steps of an account at once.
fn put_some_steps<K: Sink, A: Account>(
    sink: &mut K,
    account: &A,
    from: u32,
    count: u32,
) -> Result<(), Failed>
    requires few { count ≤ STEPS_AT_ONCE }
    requires within { from + count ≤ length (A.steps account.now) }
    requires fits { from + count < 2 ^ 32 }
    ensures took { Puts (K.taken sink.old) (K.taken sink.new) result
        (flat_map handle_line (take count (drop from (A.steps account.now)))) }
    ensures cause { HasCause (K.faults sink.old) (K.faults sink.new) result }
    ensures waits { K.waiting sink.new ≤ K.waiting sink.old
        + length (flat_map handle_line (take count (drop from (A.steps account.now)))) }
{
    let mut text = Chunk::new();
    for k in 0..count {
        push_step(&mut text, account.step_at(from + k));
    }
    give_all(sink, text.bytes())
}

// Gives the lines of all steps of an account.
fn put_steps<K: Sink, A: Account>(sink: &mut K, account: &A) -> Result<(), Failed>
    ensures took { Puts (K.taken sink.old) (K.taken sink.new) result
        (flat_map step_line (map handle_step (A.steps account.now))) }
    ensures cause { HasCause (K.faults sink.old) (K.faults sink.new) result }
    ensures waits { K.waiting sink.new ≤ K.waiting sink.old
        + length (flat_map step_line (map handle_step (A.steps account.now))) }
{
    let mut put = 0;
    'putting: while put < account.steps_done() {
        let count = (account.steps_done() - put).min(STEPS_AT_ONCE);
        put_some_steps(sink, account, put, count)?;
        put += count;
    }
    Ok(())
}

// Gives a few letters of the word that an account has reached, each behind a space, at once.
fn put_some_letters<K: Sink, A: Account>(
    sink: &mut K,
    account: &A,
    from: u32,
    count: u32,
) -> Result<(), Failed>
    requires few { count ≤ LETTERS_AT_ONCE }
    requires within { from + count ≤ length (A.current account.now) }
    requires fits { from + count < 2 ^ 32 }
    ensures took { Puts (K.taken sink.old) (K.taken sink.new) result
        (flat_map next_text (take count (drop from (A.current account.now)))) }
    ensures cause { HasCause (K.faults sink.old) (K.faults sink.new) result }
    ensures waits { K.waiting sink.new ≤ K.waiting sink.old
        + length (flat_map next_text (take count (drop from (A.current account.now)))) }
{
    let mut text = Chunk::new();
    for k in 0..count {
        push_next_letter(&mut text, account.current_at(from + k));
    }
    give_all(sink, text.bytes())
}

// Gives the letters of the word that an account has reached, each behind a space.
fn put_current<K: Sink, A: Account>(sink: &mut K, account: &A) -> Result<(), Failed>
    ensures took { Puts (K.taken sink.old) (K.taken sink.new) result (word_field (A.current account.now)) }
    ensures cause { HasCause (K.faults sink.old) (K.faults sink.new) result }
    ensures waits { K.waiting sink.new ≤ K.waiting sink.old + length (word_field (A.current account.now)) }
{
    let mut put = 0;
    'putting: while put < account.current_len() {
        let count = (account.current_len() - put).min(LETTERS_AT_ONCE as u32);
        put_some_letters(sink, account, put, count)?;
        put += count;
    }
    Ok(())
}

// Gives the witness line.
fn put_witness<K: Sink, A: Account>(sink: &mut K, account: &A) -> Result<(), Failed>
    ensures took { Puts (K.taken sink.old) (K.taken sink.new) result
        (line (codes "witness" ++ word_field (A.current account.now))) }
    ensures cause { HasCause (K.faults sink.old) (K.faults sink.new) result }
    ensures waits { K.waiting sink.new ≤ K.waiting sink.old
        + length (line (codes "witness" ++ word_field (A.current account.now))) }
{
    give_all(sink, b"witness")?;
    put_current(sink, account)?;
    give_all(sink, b"\n")
}

// The verdict line, without its LF.
fn verdict_line(verdict: Verdict) -> &'static [u8]
    ensures { result.now ≡ codes "verdict " ++ verdict_word verdict }
{
    match verdict {
        Verdict::Less => b"verdict less",
        Verdict::Equal => b"verdict equal",
        Verdict::Greater => b"verdict greater",
    }
}

// Gives the verdict line.
fn put_verdict<K: Sink>(sink: &mut K, verdict: Verdict) -> Result<(), Failed>
    ensures took { Puts (K.taken sink.old) (K.taken sink.new) result
        (line (codes "verdict " ++ verdict_word verdict)) }
    ensures cause { HasCause (K.faults sink.old) (K.faults sink.new) result }
    ensures waits { K.waiting sink.new ≤ K.waiting sink.old
        + length (line (codes "verdict " ++ verdict_word verdict)) }
{
    put_line(sink, verdict_line(verdict))
}

// Gives the lines before the steps, for two words.
fn put_head<K: Sink>(sink: &mut K, left: &[Letter], right: &[Letter]) -> Result<(), Failed>
    ensures took { Puts (K.taken sink.old) (K.taken sink.new) result (head_text (words left.now right.now)) }
    ensures cause { HasCause (K.faults sink.old) (K.faults sink.new) result }
    ensures waits { K.waiting sink.new ≤ K.waiting sink.old + length (head_text (words left.now right.now)) }
{
    put_line(sink, b"braid-trace 1")?;
    put_word_line(sink, b"left", left)?;
    put_word_line(sink, b"right", right)
}

// Gives the lines before the steps, for the texts of two terms.
fn put_term_head<K: Sink>(sink: &mut K, left: &[u8], right: &[u8]) -> Result<(), Failed>
    ensures took { Puts (K.taken sink.old) (K.taken sink.new) result (term_head_text left.now right.now) }
    ensures cause { HasCause (K.faults sink.old) (K.faults sink.new) result }
    ensures waits { K.waiting sink.new ≤ K.waiting sink.old + length (term_head_text left.now right.now) }
{
    put_line(sink, b"braid-trace 1")?;
    put_term_line(sink, b"left-term ", left)?;
    put_term_line(sink, b"right-term ", right)
}

// Gives the lines behind the steps.
fn put_tail<K: Sink, A: Account>(sink: &mut K, account: &A, verdict: Verdict) -> Result<(), Failed>
    ensures took { Puts (K.taken sink.old) (K.taken sink.new) result
        (tail_text verdict (A.current account.now)) }
    ensures cause { HasCause (K.faults sink.old) (K.faults sink.new) result }
    ensures waits { K.waiting sink.new ≤ K.waiting sink.old
        + length (tail_text verdict (A.current account.now)) }
{
    put_verdict(sink, verdict)?;
    put_witness(sink, account)?;
    put_line(sink, b"end")
}

// Gives the lines from the first step on.
fn put_body<K: Sink, A: Account>(sink: &mut K, account: &A, verdict: Verdict) -> Result<(), Failed>
    ensures took { Puts (K.taken sink.old) (K.taken sink.new) result
        (flat_map step_line (map handle_step (A.steps account.now))
        ++ tail_text verdict (A.current account.now)) }
    ensures cause { HasCause (K.faults sink.old) (K.faults sink.new) result }
    ensures waits { K.waiting sink.new ≤ K.waiting sink.old + length
        (flat_map step_line (map handle_step (A.steps account.now))
        ++ tail_text verdict (A.current account.now)) }
{
    put_steps(sink, account)?;
    put_tail(sink, account, verdict)
}

/// Gives the trace file of two words, of version 1: its steps, with places counted from 1, and its
/// witness are those of the account.
///
/// Nothing is tested: neither the account against the words, nor the verdict against the account. After
/// `Failed` the sink has taken a front of the file. It takes no memory. The format is this project's.
pub fn put_trace<K: Sink, A: Account>(
    sink: &mut K,
    left: &[Letter],
    right: &[Letter],
    account: &A,
    verdict: Verdict,
) -> Result<(), Failed>
    ensures took { Puts (K.taken sink.old) (K.taken sink.new) result
        (trace_text (record {
          header = words left.now right.now;
          steps = map handle_step (A.steps account.now);
          verdict = verdict;
          witness = A.current account.now;
        })) }
    ensures cause { HasCause (K.faults sink.old) (K.faults sink.new) result }
    ensures waits { K.waiting sink.new ≤ K.waiting sink.old + length
        (trace_text (record {
          header = words left.now right.now;
          steps = map handle_step (A.steps account.now);
          verdict = verdict;
          witness = A.current account.now;
        })) }
{
    put_head(sink, left, right)?;
    put_body(sink, account, verdict)
}

/// Gives the trace file of two terms, of version 1: the same with the terms' texts in place of the words.
///
/// The texts are to be in the strict spelling, with brackets round each product and no spaces. Nothing is
/// tested, as in `put_trace`, and neither are the texts. After `Failed` the sink has taken a front of the
/// file. It takes no memory. The format is this project's.
pub fn put_term_trace<K: Sink, A: Account>(
    sink: &mut K,
    left: &[u8],
    right: &[u8],
    account: &A,
    verdict: Verdict,
) -> Result<(), Failed>
    ensures took { Puts (K.taken sink.old) (K.taken sink.new) result
        (term_trace_text
        (record {
          left = left.now;
          right = right.now;
          steps = map handle_step (A.steps account.now);
          verdict = verdict;
          witness = A.current account.now;
        })) }
    ensures cause { HasCause (K.faults sink.old) (K.faults sink.new) result }
    ensures waits { K.waiting sink.new ≤ K.waiting sink.old + length
        (term_trace_text
        (record {
          left = left.now;
          right = right.now;
          steps = map handle_step (A.steps account.now);
          verdict = verdict;
          witness = A.current account.now;
        })) }
{
    put_term_head(sink, left, right)?;
    put_body(sink, account, verdict)
}
