// The text of a line: document 01, "The replay script".
ghost use Rattle.std.specs.Prelude.{cond, [], ◌≡◌, take};
ghost use Rattle.idset.specs.Set.{held};
ghost use Rattle.tracker.specs.Bridge.{conf_of, entry_of, log_of};
ghost use Rattle.text.specs.Text.{group, ascii};
ghost use Rattle.text.specs.Writes.{Writes};
ghost use Rattle.listing.specs.Lines.{labelled, conf_text, entry_text, spaced_entry, log_text, ok_line, refused_line};
ghost use Rattle.listing.specs.Sessions.{result_text, sign_of};

use changer::Changed;
use idset::IdSet;
use text::Output;
use tracker::refusal::Refusal;
use tracker::{ChangeLog, Configuration, MapChange, MapChangeType};

// An accepted answer's line, or a refusal's.
#[inline(never)]
pub fn put_answer(to: &mut Output, k: u64, answer: &Result<Changed, Refusal>)
    ensures { Writes to.old (result_text k answer.now) to.new }
{
    match answer {
        Ok(changed) => put_ok(to, k, &changed.conf, &changed.log),
        Err(refusal) => put_refused(to, k, refusal.number(), refusal.id()),
    }
}

fn put_ok(to: &mut Output, k: u64, conf: &Configuration, log: &ChangeLog)
    ensures { Writes to.old (ok_line k (conf_of conf.now) (log_of log.now)) to.new }
{
    to.put_decimal(k);
    to.put_bytes(b" ok");
    put_conf(to, conf);
    to.put_bytes(b" log=");
    put_log(to, log);
    to.put_byte(b'\n');
}

fn put_refused(to: &mut Output, k: u64, number: u64, id: u64)
    ensures { Writes to.old (refused_line k number id) to.new }
{
    to.put_decimal(k);
    to.put_bytes(b" refused ");
    to.put_decimal(number);
    to.put_bytes(b" id ");
    to.put_decimal(id);
    to.put_byte(b'\n');
}

// Voters, learners, learners_next, autoleave.
fn put_conf(to: &mut Output, conf: &Configuration)
    ensures { Writes to.old (conf_text (conf_of conf.now)) to.new }
{
    to.put_bytes(b" voters=");
    put_set(to, &conf.incoming);
    put_labelled(to, b"&&", &conf.outgoing);
    put_labelled(to, b" learners=", &conf.learners);
    put_labelled(to, b" learners_next=", &conf.learners_next);
    put_auto(to, conf.auto_leave);
}

fn put_set(to: &mut Output, set: &IdSet)
    ensures { Writes to.old (group (held set.now)) to.new }
{
    to.put_group(set.as_slice());
}

// A set that is not empty, after its label.
fn put_labelled(to: &mut Output, label: &[u8], set: &IdSet)
    ensures { Writes to.old (labelled label.now (held set.now)) to.new }
{
    let _at = to.at; // Read, so that it is known to be a number of 64 bits.
    if !set.is_empty() {
        to.put_bytes(label);
        put_set(to, set);
    }
}

fn put_auto(to: &mut Output, auto: bool)
    ensures { Writes to.old (cond auto (ascii " autoleave") []) to.new }
{
    let text: &[u8] = if auto { b" autoleave" } else { b"" };
    to.put_bytes(text);
}

// The entries with spaces between them, in parentheses.
fn put_log(to: &mut Output, log: &ChangeLog)
    ensures { Writes to.old (log_text (log_of log.now)) to.new }
{
    to.put_byte(b'(');
    if let Some((first, rest)) = entries(log).split_first() {
        put_entry(to, first);
        for e in rest {
            put_spaced(to, e);
        }
    }
    to.put_byte(b')');
}

// The entries of a log: the first `count`, or all.
fn entries(log: &ChangeLog) -> &[MapChange]
    ensures { result.now ≡ take log.now.count log.now.entries }
{
    let entries: &[MapChange] = &log.entries;
    &entries[..log.count.min(entries.len())]
}

// A space and the entry.
fn put_spaced(to: &mut Output, e: &MapChange)
    ensures { Writes to.old (spaced_entry (entry_of e.now)) to.new }
{
    to.put_byte(b' ');
    put_entry(to, e);
}

// `+5`, or `-5`.
fn put_entry(to: &mut Output, e: &MapChange)
    ensures { Writes to.old (entry_text (entry_of e.now)) to.new }
{
    to.put_byte(sign(e.kind));
    to.put_decimal(e.id);
}

fn sign(kind: MapChangeType) -> u8
    ensures { result ≡ sign_of kind }
{
    match kind {
        MapChangeType::Add => b'+',
        MapChangeType::Remove => b'-',
    }
}
