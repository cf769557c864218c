// A stream ID and a push ID are each a kind of their own (document 01, "Calls and the host's memory").
ghost use Rattle.std.specs.Prelude.{◌≡◌, ◌%◌, eqb};

#[repr(C)]
#[derive(Clone, Copy, PartialEq, Eq, PartialOrd, Ord)]
pub struct StreamId(pub u64);

#[repr(C)]
#[derive(Clone, Copy, PartialEq, Eq, PartialOrd, Ord)]
pub struct PushId(pub u64);

// The client's requests: 0, 4, 8..
pub fn is_request(id: StreamId) -> bool
    ensures { result ≡ eqb (id.0 % 4) 0 }
{
    id.0 % 4 == 0
}
