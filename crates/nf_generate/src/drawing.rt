//! What a message asks for and for whom, as it is drawn.

ghost use Rattle.std.specs.Prelude.{◌≡◌, ◌<◌};
ghost use Rattle.nf_generate.specs.Drawing.{act_of, behind as spec_behind, drawing, drawn, name_of, next_state, state_behind, user_of};

/// Who asks, or is given a share.
#[derive(Clone, Copy)]
pub(crate) enum User {
    Alice,
    Bob,
    Carol,
}

/// What is asked for.
#[derive(Clone, Copy)]
pub(crate) enum Act {
    /// To store so many bytes.
    Put { size: u64 },
    Get,
    Delete,
    Move,
    /// To share with who is next in the circle.
    Share,
    /// To list the root.
    List,
}

/// What a message is to say.
#[derive(Clone, Copy)]
pub(crate) struct Drawing {
    pub(crate) user: User,
    /// The number of the file.
    pub(crate) file: u64,
    pub(crate) act: Act,
}

/// What the next message is to say. The state of the numbers goes on behind those that were drawn for it.
pub(crate) fn draw_message(state: &mut u64) -> Drawing
    ensures what { result ≡ drawing state.old }
    ensures state { state.new ≡ state_behind state.old }
{
    let user = user_from(draw(state, 3));
    let file = draw(state, 10);
    let choice = draw(state, 10);
    let size = if choice < 5 { draw(state, 2000) } else { 0 };
    Drawing {
        user,
        file,
        act: act_from(choice, size),
    }
}

// A number below the bound: of a linear congruential generator, whose lowest bits are left out.
fn draw(state: &mut u64, bound: u64) -> u64
    requires { 0 < bound }
    ensures value { result ≡ drawn state.old bound }
    ensures state { state.new ≡ next_state state.old }
{
    *state = state
        .wrapping_mul(6_364_136_223_846_793_005)
        .wrapping_add(1_442_695_040_888_963_407);
    (*state >> 33) % bound
}

fn user_from(number: u64) -> User
    ensures { result ≡ user_of number }
{
    match number {
        0 => User::Alice,
        1 => User::Bob,
        _ => User::Carol,
    }
}

fn act_from(choice: u64, size: u64) -> Act
    ensures { result ≡ act_of choice size }
{
    match choice {
        5 => Act::Get,
        6 => Act::Delete,
        7 => Act::Move,
        8 => Act::Share,
        9 => Act::List,
        _ => Act::Put { size },
    }
}

impl User {
    pub(crate) fn name(self) -> &'static str
        ensures { result.now ≡ name_of self }
    {
        match self {
            User::Alice => "alice",
            User::Bob => "bob",
            User::Carol => "carol",
        }
    }

    /// Who is next in the circle.
    pub(crate) fn behind(self) -> User
        ensures { result ≡ spec_behind self }
    {
        match self {
            User::Alice => User::Bob,
            User::Bob => User::Carol,
            User::Carol => User::Alice,
        }
    }
}
