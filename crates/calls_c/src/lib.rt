// The C functions of libcalls.a: docs/EMBEDDING.md has the layout. The contract of each is that of crate calls' function of the same name.
#![tactic(auto)]

ghost use Rattle.std.specs.Prelude.{◌≡◌, length};
ghost use Rattle.confstate.specs.Entries.{read_answer, read_leaves, write_answer, write_leaves};
ghost use Rattle.comparison.specs.Compare.{compare_answer, compare_leaves};
ghost use Rattle.calls.specs.Call.{call_answer, call_leaves};
ghost use Rattle.calls.specs.Unplugs.{unplug_answer, unplug_leaves};

// The call that a request asks for, its answer written to the front of `reply`: 0. A request of the wrong length: 1; a reply that is too short: 2; an
// unknown call: 3; a word that no field can hold: 4; the reply is then as it was.
#[unsafe(no_mangle)]
pub extern "C" fn dimecandle_call(request: &[u8], reply: &mut [u8]) -> u64
    ensures { (result ≡ call_answer request.now (length reply.old)) × (reply.new ≡ call_leaves request.now reply.old) }
{
    calls::dimecandle_call(request, reply)
}

// Can this box be unplugged? The number and id of `simple` with the removal of `id` alone, of a STATE in words, at the front of `verdict`: 0. A state that has
// not 967 words: 1; a verdict of less than two: 2; a word that no field can hold: 4; the verdict is then as it was.
#[unsafe(no_mangle)]
pub extern "C" fn dimecandle_unplug(state: &[u64], id: u64, verdict: &mut [u64]) -> u64
    ensures { (result ≡ unplug_answer state.now (length verdict.old)) × (verdict.new ≡ unplug_leaves state.now id verdict.old) }
{
    calls::dimecandle_unplug(state, id, verdict)
}

// A ConfState read from its bytes into the words of a CONFSTATE: 0; or 28, 29, 30, and four empty lists and a false flag. The words after them are kept.
// Less than 261 words: 100, and they are as they were.
#[unsafe(no_mangle)]
pub extern "C" fn dimecandle_read_conf_state(bytes: &[u8], conf_state: &mut [u64]) -> u64
    ensures { (result ≡ read_answer bytes.now (length conf_state.old)) × (conf_state.new ≡ read_leaves bytes.now conf_state.old) }
{
    calls::dimecandle_read_conf_state(bytes, conf_state)
}

// A ConfState written from the words of a CONFSTATE to the front of `bytes`: its length, and the bytes after it are kept. Else 2^32 and the refusal, 1, 2 or
// 31, and the bytes are as they were.
#[unsafe(no_mangle)]
pub extern "C" fn dimecandle_write_conf_state(conf_state: &[u64], bytes: &mut [u8]) -> u64
    ensures { (result ≡ write_answer conf_state.now (length bytes.old)) × (bytes.new ≡ write_leaves conf_state.now bytes.old) }
{
    calls::dimecandle_write_conf_state(conf_state, bytes)
}

// Where two ConfStates disagree: the lines to the front of `out`, every byte after them kept; their length comes back, 0 where both mean the same. Else 2^32
// and the refusal, and `out` is as it was: 32 for a slice over 32 KiB; 28, 29 or 30 of the first, then of the second; 100 for lines longer than `out`.
#[unsafe(no_mangle)]
pub extern "C" fn dimecandle_compare(first: &[u8], second: &[u8], out: &mut [u8]) -> u64
    ensures { (result ≡ compare_answer first.now second.now (length out.old)) × (out.new ≡ compare_leaves first.now second.now out.old) }
{
    calls::dimecandle_compare(first, second, out)
}
