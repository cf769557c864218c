// A control stream's complete payloads (document 01, "Frames"): SETTINGS, a client's GOAWAY, MAX_PUSH_ID and CANCEL_PUSH, judged by value.
#![tactic(auto)]

pub mod settings;

ghost use Rattle.std.specs.Prelude.{◌≡◌};
ghost use Rattle.control.specs.Answers.{settings_is};
ghost use Rattle.rules.specs.Integers.{integer};
ghost use Rattle.meaning.specs.NumberLaws.{numbered};
ghost use Rattle.rules.specs.Control.{settings_of, only};
ghost use Rattle.control.specs.Judged.{refusal, settings_kept, settings_verdict, goaway_of, max_push_of, id_of, integer_of, judged_of};
ghost use Rattle.rules.specs.Numbers.{code_number};
ghost use Rattle.rules.specs.Named.{code_of};

use rules::codes::Code;
use settings::Settings;
use wire::ids::PushId;

// What a control stream keeps. set 0: SETTINGS have not come. limited 1: a section size is stated. goaways and pushes: how many of GOAWAY and
// MAX_PUSH_ID have come, 0 or 1 for any; goaway and push: the last of each.
#[repr(C)]
#[derive(Clone, Copy)]
pub struct Kept {
    pub set: u64,
    pub limited: u64,
    pub size: u64,
    pub capacity: u64,
    pub blocked: u64,
    pub goaways: u64,
    pub goaway: PushId,
    pub pushes: u64,
    pub push: PushId,
}

// number 0: good, else the code. event: NOTHING, SETTINGS, GOAWAY (a client's) or MAX_PUSH_ID of rules; id: the push ID of the last two.
#[repr(C)]
#[derive(Clone, Copy)]
pub struct Verdict {
    pub number: u64,
    pub event: u64,
    pub id: PushId,
    pub kept: Kept,
}

fn refused(code: Code, kept: Kept) -> Verdict
    ensures { result ≡ refusal (code_number (code_of code)) kept }
{
    Verdict {
        number: code.number(),
        event: rules::NOTHING,
        id: PushId(0),
        kept,
    }
}

// ---- SETTINGS

fn keep_settings(s: Settings) -> Kept
    ensures { result ≡ settings_kept (settings_is s) }
{
    Kept {
        set: 1,
        limited: u64::from(s.size.is_some()),
        size: s.size.unwrap_or(0),
        capacity: s.capacity,
        blocked: s.blocked,
        goaways: 0,
        goaway: PushId(0),
        pushes: 0,
        push: PushId(0),
    }
}

fn judge_settings(kept: Kept, payload: &[u8]) -> Verdict
    ensures { result ≡ settings_verdict kept (numbered (settings_of payload.now)) }
{
    match settings::judge(payload) {
        Err(code) => refused(code, kept),
        Ok(s) => Verdict {
            number: rules::ACCEPTED,
            event: rules::SETTINGS,
            id: PushId(0),
            kept: keep_settings(s),
        },
    }
}

// ---- one integer

// A client's GOAWAY may not be above an earlier one.
fn judge_goaway(kept: Kept, id: PushId) -> Verdict
    ensures { result ≡ goaway_of kept id }
{
    if kept.goaways != 0 && kept.goaway < id {
        return refused(Code::IdError, kept);
    }
    Verdict {
        number: rules::ACCEPTED,
        event: rules::GOAWAY,
        id,
        kept: Kept {
            set: 1,
            goaways: 1,
            goaway: id,
            ..kept
        },
    }
}

// A MAX_PUSH_ID may not be below an earlier one. Apart from the GOAWAY's: its fields, event and order are others, and one function of four parameters is no plainer.
fn judge_max_push(kept: Kept, id: PushId) -> Verdict
    ensures { result ≡ max_push_of kept id }
{
    if kept.pushes != 0 && id < kept.push {
        return refused(Code::IdError, kept);
    }
    Verdict {
        number: rules::ACCEPTED,
        event: rules::MAX_PUSH_ID,
        id,
        kept: Kept {
            set: 1,
            pushes: 1,
            push: id,
            ..kept
        },
    }
}

// which: the payload's place in frames; SETTINGS come once, and what is left is CANCEL_PUSH: we promise no push.
fn judge_id(which: u64, kept: Kept, id: PushId) -> Verdict
    ensures { result ≡ id_of which kept id }
{
    match which {
        frames::IN_GOAWAY => judge_goaway(kept, id),
        frames::IN_MAX_PUSH_ID => judge_max_push(kept, id),
        frames::IN_SETTINGS => refused(Code::FrameUnexpected, kept),
        _ => refused(Code::IdError, kept),
    }
}

fn judge_integer(which: u64, kept: Kept, payload: &[u8]) -> Verdict
    ensures { result ≡ integer_of which kept (only (integer 0 payload.now)) }
{
    match settings::only(payload) {
        None => refused(Code::FrameError, kept),
        Some(id) => judge_id(which, kept, PushId(id)),
    }
}

// A complete payload.
pub fn judge(which: u64, kept: Kept, payload: &[u8]) -> Verdict
    ensures { result ≡ judged_of which kept payload.now }
{
    if kept.set == 0 {
        judge_settings(kept, payload)
    } else {
        judge_integer(which, kept, payload)
    }
}
