// SETTINGS payloads, pair by pair, and payloads that are one integer (document 01, "Frames").
ghost use Rattle.std.specs.Prelude.{◌≡◌};
ghost use Rattle.rules.specs.Text.{is_one_of};
ghost use Rattle.rules.specs.Integers.{integer};
ghost use Rattle.rules.specs.Control.{reserved_identifiers, set_to, settings_of, only as the-only};
ghost use Rattle.meaning.specs.NumberLaws.{numbered};
ghost use Rattle.control.specs.Answers.{judged_is, single_is, settings_is};
ghost use Rattle.control.specs.Walk.{FoundAt, Looked, Walked, kept_by};

use rules::codes::Code;

// What is kept of SETTINGS.
#[derive(Clone, Copy)]
pub struct Settings {
    // The largest field section, identifier 6; absent means unlimited.
    pub size: Option<u64>,
    // The QPACK table's capacity, identifier 1; absent means 0.
    pub capacity: u64,
    // The streams that may be blocked on it, identifier 7; absent means 0.
    pub blocked: u64,
}

// What a payload begins with: an identifier and value, behind which the shorter payload starts.
#[derive(Clone, Copy)]
struct Pair {
    identifier: u64,
    value: u64,
    shorter: usize,
}

// The pair at a place, if it is whole. Inlined: what looks for an identifier reads no value then, and a level of the walk keeps less.
#[inline(always)]
fn pair_at(payload: &[u8], at: usize) -> Option<Pair>
    ensures { FoundAt payload.now at result }
{
    let identifier = varint::read(payload, at)?;
    let value = varint::read(payload, identifier.next)?;
    Some(Pair {
        identifier: identifier.value,
        value: value.value,
        shorter: value.next,
    })
}

// Looks again at the pairs before a place: is one of their identifiers the one sought? No iterator: each pair says where the next begins.
fn seen(payload: &[u8], until: usize, sought: u64) -> bool
    ensures { Looked payload.now 0 until sought result }
{
    let mut at = 0;
    while at < until {
        let Some(pair) = pair_at(payload, at) else {
            return false;
        };
        if pair.identifier == sought {
            return true;
        }
        at = pair.shorter;
    }
    false
}

fn reserved(identifier: u64) -> bool
    ensures { result ≡ is_one_of reserved_identifiers identifier }
{
    matches!(identifier, 2..=5)
}

// What is kept once a pair has come.
fn set(kept: &mut Settings, pair: Pair)
    ensures { settings_is kept.new ≡ set_to pair.identifier pair.value (settings_is kept.old) }
{
    match pair.identifier {
        6 => kept.size = Some(pair.value),
        1 => kept.capacity = pair.value,
        7 => kept.blocked = pair.value,
        _ => {}
    }
}

// The payload from `at` on is an identifier and value followed by a shorter payload, or nothing. What is kept so far is lent: no level holds a copy.
fn walk(payload: &[u8], at: usize, kept: &mut Settings) -> Result<(), Code>
    ensures { Walked payload.now at (settings_is kept.old) (kept_by result kept.new) }
{
    if payload.len() <= at {
        return Ok(());
    }
    let pair = pair_at(payload, at).ok_or(Code::FrameError)?;
    if reserved(pair.identifier) || seen(payload, at, pair.identifier) {
        return Err(Code::SettingsError);
    }
    set(kept, pair);
    walk(payload, pair.shorter, kept)
}

// A complete SETTINGS payload.
pub fn judge(payload: &[u8]) -> Result<Settings, Code>
    ensures { judged_is result ≡ numbered (settings_of payload.now) }
{
    let mut kept = Settings {
        size: None,
        capacity: 0,
        blocked: 0,
    };
    walk(payload, 0, &mut kept)?;
    Ok(kept)
}

// A complete payload of GOAWAY, MAX_PUSH_ID or CANCEL_PUSH: the integer that is the whole of it.
pub fn only(payload: &[u8]) -> Option<u64>
    ensures { single_is result ≡ the-only (integer 0 payload.now) }
{
    let whole = varint::read(payload, 0)?;
    if whole.next == payload.len() {
        Some(whole.value)
    } else {
        None
    }
}
