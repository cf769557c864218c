// Which streams a connection lets in (document 01, "Calls and the host's memory"), by value.
ghost use Rattle.std.specs.Prelude.{◌≡◌, ◌<◌, ◌^◌};
ghost use Rattle.wire.specs.Goaway.{sent_of};
ghost use Rattle.connection.specs.Goaway.{sent_in, SendsAs};
ghost use Rattle.connection.specs.Openings.{fresh_doors, refusal, barred_at, admitted_as, request_of, one_way_of, opened_of};

use wire::ids::StreamId;

// A stream's ID is below 2^62.
const IDS: u64 = 1 << 62;

// code: of the connection fault, 0 while there was none. requests and oneways: the lowest ID of each kind that was not opened yet.
// goaways 0: we sent no GOAWAY; goaway: the last one's.
#[repr(C)]
#[derive(Clone, Copy)]
pub struct Doors {
    pub code: u64,
    pub requests: u64,
    pub oneways: u64,
    pub goaways: u64,
    pub goaway: StreamId,
}

impl Doors {
    // The ID of the last GOAWAY that we sent. The flag and the value beside it are the C interface's; what decides reads them here alone.
    fn sent(&self) -> Option<StreamId>
        ensures { sent_of result ≡ sent_in self.now }
    {
        if self.goaways == 0 {
            None
        } else {
            Some(self.goaway)
        }
    }

    // Our GOAWAY bars requests from its ID upward.
    fn bars(&self, id: StreamId) -> bool
        ensures { result ≡ barred_at self.now.goaways self.now.goaway.0 id.0 }
    {
        self.sent().is_some_and(|bar| bar <= id)
    }
}

// No stream was opened yet.
pub fn fresh() -> Doors
    ensures { result ≡ fresh_doors }
{
    Doors {
        code: 0,
        requests: 0,
        oneways: 2,
        goaways: 0,
        goaway: StreamId(0),
    }
}

// number 0: accepted. No Result: 0x010b, too, spends the ID, so each number comes with doors.
#[derive(Clone, Copy)]
pub struct Opening {
    pub number: u64,
    pub doors: Doors,
}

fn refused(number: u64, d: Doors) -> Opening
    ensures { result ≡ refusal number d }
{
    Opening { number, doors: d }
}

// A record must be free; free is how many are, as the definition has it, though a call's search counts no further than one.
fn admitted(free: u64, next: Doors, d: Doors) -> Opening
    ensures { result ≡ admitted_as free next d }
{
    if free == 0 {
        refused(rules::NO_RECORD, d)
    } else {
        Opening {
            number: rules::ACCEPTED,
            doors: next,
        }
    }
}

fn open_request(d: Doors, id: StreamId, free: u64) -> Opening
    requires { id.0 < 2 ^ 62 }
    ensures { result ≡ request_of d id.0 free }
{
    if id.0 != d.requests {
        return refused(rules::NOT_NEXT, d);
    }
    // The ID is spent.
    let next = Doors {
        requests: d.requests + 4,
        ..d
    };
    if d.bars(id) {
        Opening {
            number: rules::REQUEST_REJECTED,
            doors: next,
        }
    } else {
        admitted(free, next, d)
    }
}

// Requests alone are barred: so no one function with open_request.
fn open_one_way(d: Doors, id: StreamId, free: u64) -> Opening
    requires { id.0 < 2 ^ 62 }
    ensures { result ≡ one_way_of d id.0 free }
{
    if id.0 != d.oneways {
        return refused(rules::NOT_NEXT, d);
    }
    let next = Doors {
        oneways: d.oneways + 4,
        ..d
    };
    admitted(free, next, d)
}

// The peer opens a stream; free is how many records are.
pub fn open(d: Doors, id: StreamId, free: u64) -> Opening
    ensures { result ≡ opened_of d id.0 free }
{
    if d.code != 0 {
        return refused(d.code, d);
    }
    if IDS <= id.0 {
        return refused(rules::NOT_NEXT, d);
    }
    match id.0 % 4 {
        0 => open_request(d, id, free),
        2 => open_one_way(d, id, free),
        _ => refused(rules::NOT_NEXT, d),
    }
}

// ---- our GOAWAY

// We send a GOAWAY of this ID: how many bytes are written, and the doors after it. Dead connection, 8, 7: with a refusal's number they stay as they were.
pub fn send_goaway(d: Doors, id: StreamId, room: &mut [u8]) -> Result<(usize, Doors), u64>
    ensures { SendsAs d id room.old result room.new }
{
    if d.code != 0 {
        return Err(d.code);
    }
    match wire::write_goaway(d.sent(), id, room) {
        Ok(count) => {
            let after = Doors {
                goaways: 1,
                goaway: id,
                ..d
            };
            Ok((count, after))
        }
        Err(refusal) => Err(refusal.number()),
    }
}
