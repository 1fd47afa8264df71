//! Rows of people that are put among the others. Nothing here takes memory, since there is room.

ghost use Rattle.std.specs.Prelude.{◌≡◌, ◌⊎◌, None, is_some};
ghost use Rattle.nf_defs.specs.Prelude.{group_key, member_key, put, token_key, user_key, user_row};
ghost use Rattle.nf_people.specs.Faults.{fault_of_member, fault_of_token};
ghost use Rattle.nf_people.specs.People.{FitsGroup, FitsMember, FitsToken, FitsUser};
ghost use Rattle.nf_state.specs.Counts.{IsNoNarrower};
ghost use Rattle.nf_state.specs.Current.{IsAdded, IsFounded, IsRequoted};

use nf_base::{GroupRow, MemberRow, TokenRow, UserId, UserRow};
use nf_people::{People, PeopleFault};

/// Puts a new user, or one who is there with another quota.
pub(crate) fn put_user(people: &mut People, row: UserRow)
    requires room { FitsUser people.old }
    requires borne { IsAdded people.old.users row ⊎ IsRequoted people.old.users row }
    ensures rows { people.new ≡ record people.old { users = put user_key row people.old.users; room = people.new.room } }
    ensures room { IsNoNarrower people.old.room people.new.room }
{
    if has_user(people, row.id) {
        requote(people, &row);
    } else {
        add_user(people, row);
    }
}

fn has_user(people: &People, user: UserId) -> bool
    ensures { result ≡ is_some (user_row people.now.users user) }
{
    people.row(user).is_some()
}

/// Gives a user who is there another quota.
fn requote(people: &mut People, row: &UserRow)
    requires { IsRequoted people.old.users row.now }
    ensures rows { people.new ≡ record people.old { users = put user_key row.now people.old.users; room = people.new.room } }
    ensures room { IsNoNarrower people.old.room people.new.room }
{
    let done: Result<(), PeopleFault> = people.set_quota(row.id, row.quota);
    done.unwrap();
}

/// Puts a new user.
fn add_user(people: &mut People, row: UserRow)
    requires room { FitsUser people.old }
    requires new { IsAdded people.old.users row }
    ensures rows { people.new ≡ record people.old { users = put user_key row people.old.users; room = people.new.room } }
    ensures room { IsNoNarrower people.old.room people.new.room }
{
    let done: Result<(), PeopleFault> = people.add_user(row);
    done.unwrap();
}

/// Puts a new token.
pub(crate) fn put_token(people: &mut People, row: TokenRow)
    requires room { FitsToken people.old }
    requires new { fault_of_token people.old row ≡ None }
    ensures rows { people.new ≡ record people.old { tokens = put token_key row people.old.tokens; room = people.new.room } }
    ensures room { IsNoNarrower people.old.room people.new.room }
{
    let done: Result<(), PeopleFault> = people.add_token(row);
    done.unwrap();
}

/// Puts a new group.
pub(crate) fn put_group(people: &mut People, row: GroupRow)
    requires room { FitsGroup people.old }
    requires new { IsFounded people.old.groups row }
    ensures rows { people.new ≡ record people.old { groups = put group_key row people.old.groups; room = people.new.room } }
    ensures room { IsNoNarrower people.old.room people.new.room }
{
    let done: Result<(), PeopleFault> = people.add_group(row);
    done.unwrap();
}

/// Puts a new member.
pub(crate) fn put_member(people: &mut People, row: MemberRow)
    requires room { FitsMember people.old }
    requires new { fault_of_member people.old row ≡ None }
    ensures rows { people.new ≡ record people.old { members = put member_key row people.old.members; room = people.new.room } }
    ensures room { IsNoNarrower people.old.room people.new.room }
{
    let done: Result<(), PeopleFault> = people.add_member(row);
    done.unwrap();
}
