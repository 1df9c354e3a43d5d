// Where the ended frames of a store lie, told by the role of each byte of room that they use.
ghost use Rattle.std.specs.Prelude.{◌≡◌, ◌+◌, ◌≤◌, ◌++◌, ◌∷◌, [], length, take, slice_get, count_by, vec_capacity};
ghost use Rattle.outside.specs.Roles.{spans_in, roles_of, cost_of, is_end};
ghost use Rattle.outside.specs.Spans.{sum_of};

/// What a byte of the room is used for: a byte of a frame's name, one of its picture, or the one byte more.
#[derive(Clone, Copy, PartialEq, Eq)]
pub enum Role {
    Name,
    Picture,
    End,
}

/// How long the name of an ended frame is, and the picture behind it.
#[derive(Clone, Copy)]
pub struct Span {
    pub name: usize,
    pub bytes: usize,
}

/// What a look-up of a frame found: how much of the store the frames before it take, and its span if there is one.
#[derive(Clone, Copy)]
pub struct Found {
    pub start: usize,
    pub span: Option<Span>,
}

// Appends the roles of the bytes that a frame uses. Room for them must be reserved.
pub fn push_span(roles: &mut Vec<Role>, span: Span)
    requires room { length roles.old.items + cost_of span ≤ vec_capacity roles.old }
    requires whole { roles.old.items ≡ roles_of (spans_in roles.old.items) }
    ensures spans { spans_in roles.new.items ≡ spans_in roles.old.items ++ span ∷ [] }
    ensures whole { roles.new.items ≡ roles_of (spans_in roles.new.items) }
    ensures length { length roles.new.items ≡ length roles.old.items + cost_of span }
    ensures capacity { vec_capacity roles.old ≤ vec_capacity roles.new }
{
    let named = roles.len() + span.name;
    let Ok(()) = roles.resize(named, Role::Name) else {
        unreachable!()
    };
    let Ok(()) = roles.resize(named + span.bytes, Role::Picture) else {
        unreachable!()
    };
    roles.push_reserved(Role::End);
}

// How many frames there are.
#[tactic(auto, using(crate::proofs::Coding::ends_count_spans))]
pub fn count(roles: &[Role]) -> usize
    ensures { result ≡ length (spans_in roles.now) }
{
    ends(roles)
}

fn ends(roles: &[Role]) -> usize
    ensures { result ≡ count_by is_end roles.now }
{
    roles.iter().filter(|role| **role == Role::End).count()
}

// The nth frame, counted from 0.
pub fn find(roles: &[Role], n: usize) -> Found
    ensures span { result.span ≡ slice_get (spans_in roles.now) n }
    ensures start { result.start ≡ sum_of (take n (spans_in roles.now)) }
{
    let mut start = 0;
    let mut before = 0;
    let mut span = Span { name: 0, bytes: 0 };
    for role in roles {
        match role {
            Role::Name => span.name += 1,
            Role::Picture => span.bytes += 1,
            Role::End => {
                if before == n {
                    return Found {
                        start,
                        span: Some(span),
                    };
                }
                start += span.name + span.bytes;
                before += 1;
                span = Span { name: 0, bytes: 0 };
            }
        }
    }
    Found { start, span: None }
}
