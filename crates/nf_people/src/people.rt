//! Users, groups, tokens and members.

ghost use Rattle.std.specs.Prelude.{◌≡◌, ◌≢◌, ◌<◌, ◌≤◌, ◌==◌, [], ◌∷◌, ◌++◌, map, filter, length, nat_le, All, IfOk, OnOk, Err, option_copied};
ghost use Rattle.std.specs.List.{take_while};
ghost use Rattle.std.specs.List.Sorted.{IsStrictlyIncreasing};
ghost use Rattle.nf_defs.specs.Prelude.{dropped, group_key, group_named, group_row, holder_of, is_member_of, IsRising, member_key, members_of, put, token_key, user_key, user_named, user_row, with_quota};
ghost use Rattle.nf_defs.specs.People.{is_admin};
ghost use Rattle.nf_people.specs.Faults.{Adds, is_full, fault_of_user, fault_of_group, fault_of_token, fault_of_member, fault_of_quota};
ghost use Rattle.nf_people.specs.People.{ArePeople, FitsUser, FitsToken, FitsGroup, FitsMember, HasRoom, IsHeld, rows_of_people};
ghost use Rattle.nf_people.specs.declared.faults.PeopleFault.TheVariants.{Memory};

use crate::faults::PeopleFault;
use crate::listed::push_rows;
use crate::names::NamedRows;
use nf_base::{
    Digest, GroupId, GroupRow, MAX_GROUPS, MAX_MEMBERS, MAX_TOKENS, MAX_USERS, MemberRow, Name,
    RowList, TokenRow, UserId, UserRow,
};
use nf_defs::{drop_row, has_row, put, row_of};
use std::alloc::{AllocError, Global};
use std::marker::Model;

/// The people of the site. Users and groups never go.
#[derive(Drop)]
pub struct People {
    users: NamedRows<UserRow>,
    tokens: Vec<TokenRow>,
    groups: NamedRows<GroupRow>,
    members: Vec<MemberRow>,
}

impl Model for People {
    ghost use Rattle.std.specs.Prelude.{vec_capacity};
    ghost use Rattle.nf_defs.specs.Prelude.{IsRising, member_key, token_key};
    ghost use Rattle.nf_people.specs.People.{PeopleValue};

    ghost Value = { PeopleValue };

    ghost view = { λ p. record {
      users = p.users.rows;
      tokens = p.tokens.items;
      groups = p.groups.rows;
      members = p.members.items;
      room = record { users = p.users.room; tokens = vec_capacity p.tokens; groups = p.groups.room; members = vec_capacity p.members };
    } };

    ghost invariant = { λ p. IsRising token_key p.tokens.items × IsRising member_key p.members.items };
}

/// Rows of each kind, by rising key.
#[derive(Drop)]
pub struct PeopleRows {
    pub users: Vec<UserRow>,
    pub tokens: Vec<TokenRow>,
    pub groups: Vec<GroupRow>,
    pub members: Vec<MemberRow>,
}

/// How many of each kind there are.
#[derive(Clone, Copy, PartialEq, Eq)]
pub struct PeopleCounts {
    pub users: usize,
    pub tokens: usize,
    pub groups: usize,
    pub members: usize,
}

impl People {
    pub fn new(alloc: Global) -> Self
        ensures users { result.users ≡ [] }
        ensures tokens { result.tokens ≡ [] }
        ensures groups { result.groups ≡ [] }
        ensures members { result.members ≡ [] }
    {
        People {
            users: NamedRows::new(alloc),
            tokens: Vec::new(alloc),
            groups: NamedRows::new(alloc),
            members: Vec::new(alloc),
        }
    }

    /// The people of these rows.
    pub fn load(alloc: Global, rows: PeopleRows) -> Result<Self, AllocError>
        requires { ArePeople rows.users.items rows.tokens.items rows.groups.items rows.members.items }
        ensures users { IfOk result (λ people. people.users ≡ rows.users.items) }
        ensures tokens { IfOk result (λ people. people.tokens ≡ rows.tokens.items) }
        ensures groups { IfOk result (λ people. people.groups ≡ rows.groups.items) }
        ensures members { IfOk result (λ people. people.members ≡ rows.members.items) }
    {
        Ok(People {
            users: NamedRows::of(alloc, rows.users)?,
            tokens: rows.tokens,
            groups: NamedRows::of(alloc, rows.groups)?,
            members: rows.members,
        })
    }

    /// Tells callers what people always keep; it does nothing.
    pub fn keeps(&self)
        ensures people { ArePeople self.now.users self.now.tokens self.now.groups self.now.members }
        ensures held { IsHeld self.now }
    {
        let _ = self.users.rows();
        let _ = self.groups.rows();
    }

    /// Makes room for so many more of each kind.
    pub fn reserve(&mut self, added: PeopleCounts) -> Result<(), AllocError>
        ensures ok { OnOk result (HasRoom self.new added) }
        ensures same { self.new ≡ record self.old { room = self.new.room } }
    {
        self.users.reserve(added.users)?;
        self.tokens.reserve(added.tokens)?;
        self.groups.reserve(added.groups)?;
        self.members.reserve(added.members)
    }

    /// The user whose token has that digest.
    pub fn caller(&self, digest: &Digest) -> Option<UserId>
        ensures { result ≡ holder_of self.now.tokens digest.now }
    {
        Some(row_of(&self.tokens, digest)?.user)
    }

    /// The user of that name.
    pub fn user(&self, name: &Name) -> Option<UserId>
        ensures { result ≡ user_named self.now.users name.now }
    {
        Some(self.users.find(name.as_bytes())?.id)
    }

    /// The group of that name.
    pub fn group(&self, name: &Name) -> Option<GroupId>
        ensures { result ≡ group_named self.now.groups name.now }
    {
        Some(self.groups.find(name.as_bytes())?.id)
    }

    pub fn row(&self, user: UserId) -> Option<&UserRow>
        ensures { option_copied result ≡ user_row self.now.users user }
    {
        row_of(self.users.rows(), &user)
    }

    pub fn group_row(&self, group: GroupId) -> Option<&GroupRow>
        ensures { option_copied result ≡ group_row self.now.groups group }
    {
        row_of(self.groups.rows(), &group)
    }

    pub fn is_member(&self, group: GroupId, user: UserId) -> bool
        ensures { result ≡ is_member_of self.now.members group user }
    {
        has_row(&self.members, &MemberRow { group, user })
    }

    /// Whether the user is a member of the group named `admin`.
    pub fn is_admin(&self, user: UserId) -> bool
        ensures { result ≡ is_admin self.now.groups self.now.members user }
    {
        match self.groups.find(b"admin") {
            Some(group) => self.is_member(group.id, user),
            None => false,
        }
    }

    /// The members of a group, by rising number.
    pub fn members(&self, alloc: Global, group: GroupId) -> Result<Vec<UserId>, AllocError>
        ensures users { IfOk result (λ users. users.items ≡ members_of self.now.members group) }
        ensures rising { IfOk result (λ users. IsStrictlyIncreasing users.items) }
    {
        first_users(alloc, rows_from(&self.members, group), group)
    }

    pub fn counts(&self) -> PeopleCounts
        ensures { result ≡ record { users = length self.now.users; tokens = length self.now.tokens; groups = length self.now.groups; members = length self.now.members } }
    {
        PeopleCounts {
            users: self.users.rows().len(),
            tokens: self.tokens.len(),
            groups: self.groups.rows().len(),
            members: self.members.len(),
        }
    }

    /// Puts in a user whose number is above all that are there.
    pub fn add_user(&mut self, row: UserRow) -> Result<(), PeopleFault>
        requires { All (λ old. old.id < row.id) self.old.users }
        ensures adds { Adds (fault_of_user self.old row) self.old (record self.old { users = put user_key row self.old.users }) self.new result }
        ensures room { FitsUser self.old → result ≢ Err Memory }
        ensures others { self.new.room ≡ record self.old.room { users = self.new.room.users } }
        ensures kept { self.old.room.users ≤ self.new.room.users }
    {
        if self.user(&row.name).is_some() {
            return Err(PeopleFault::Taken);
        }
        if is_full(MAX_USERS, self.users.rows().len()) {
            return Err(PeopleFault::Limit { count: MAX_USERS });
        }
        self.users.add(row)?;
        Ok(())
    }

    /// Puts in a group whose number is above all that are there.
    pub fn add_group(&mut self, row: GroupRow) -> Result<(), PeopleFault>
        requires { All (λ old. old.id < row.id) self.old.groups }
        ensures adds { Adds (fault_of_group self.old row) self.old (record self.old { groups = put group_key row self.old.groups }) self.new result }
        ensures room { FitsGroup self.old → result ≢ Err Memory }
        ensures others { self.new.room ≡ record self.old.room { groups = self.new.room.groups } }
        ensures kept { self.old.room.groups ≤ self.new.room.groups }
    {
        if self.group(&row.name).is_some() {
            return Err(PeopleFault::Taken);
        }
        if is_full(MAX_GROUPS, self.groups.rows().len()) {
            return Err(PeopleFault::Limit { count: MAX_GROUPS });
        }
        self.groups.add(row)?;
        Ok(())
    }

    pub fn add_token(&mut self, row: TokenRow) -> Result<(), PeopleFault>
        ensures adds { Adds (fault_of_token self.old row) self.old (record self.old { tokens = put token_key row self.old.tokens }) self.new result }
        ensures room { FitsToken self.old → result ≢ Err Memory }
        ensures others { self.new.room ≡ record self.old.room { tokens = self.new.room.tokens } }
        ensures kept { self.old.room.tokens ≤ self.new.room.tokens }
    {
        if self.caller(&row.digest).is_some() {
            return Err(PeopleFault::Taken);
        }
        if self.row(row.user).is_none() {
            return Err(PeopleFault::Unknown);
        }
        if is_full(MAX_TOKENS, self.tokens.len()) {
            return Err(PeopleFault::Limit { count: MAX_TOKENS });
        }
        put(&mut self.tokens, row)?;
        Ok(())
    }

    pub fn add_member(&mut self, row: MemberRow) -> Result<(), PeopleFault>
        ensures adds { Adds (fault_of_member self.old row) self.old (record self.old { members = put member_key row self.old.members }) self.new result }
        ensures room { FitsMember self.old → result ≢ Err Memory }
        ensures others { self.new.room ≡ record self.old.room { members = self.new.room.members } }
        ensures kept { self.old.room.members ≤ self.new.room.members }
    {
        if self.is_member(row.group, row.user) {
            return Err(PeopleFault::Taken);
        }
        if self.group_row(row.group).is_none() || self.row(row.user).is_none() {
            return Err(PeopleFault::Unknown);
        }
        if is_full(MAX_MEMBERS, self.members.len()) {
            return Err(PeopleFault::Limit { count: MAX_MEMBERS });
        }
        put(&mut self.members, row)?;
        Ok(())
    }

    /// Gives a user another quota. It takes no memory.
    pub fn set_quota(&mut self, user: UserId, quota: u64) -> Result<(), PeopleFault>
        ensures sets { Adds (fault_of_quota self.old user) self.old (record self.old { users = with_quota self.old.users user quota }) self.new result }
        ensures memory { result ≢ Err Memory }
        ensures room { self.new.room ≡ self.old.room }
    {
        if self.users.set_quota(user, quota) {
            Ok(())
        } else {
            Err(PeopleFault::Unknown)
        }
    }

    /// Takes a member out of a group, and tells whether it was there. It takes no memory.
    pub fn drop_member(&mut self, group: GroupId, user: UserId) -> bool
        ensures found { result ≡ is_member_of self.old.members group user }
        ensures dropped { self.new ≡ record self.old { members = dropped member_key (group ∷ user ∷ []) self.old.members } }
    {
        drop_row(&mut self.members, &MemberRow { group, user })
    }

    /// All rows, by rising kind and key.
    pub fn rows(&self, alloc: Global) -> Result<RowList, AllocError>
        ensures { IfOk result (λ list. list ≡ rows_of_people self.now) }
    {
        let mut list = RowList::new(alloc);
        self.push_rows(&mut list)?;
        Ok(list)
    }

    /// Puts all rows at the end of a list, by rising kind and key.
    pub fn push_rows(&self, list: &mut RowList) -> Result<(), AllocError>
        ensures { OnOk result (list.new ≡ list.old ++ rows_of_people self.now) }
    {
        push_rows(list, self.users.rows())?;
        push_rows(list, &self.tokens)?;
        push_rows(list, self.groups.rows())?;
        push_rows(list, &self.members)
    }
}

/// Whether as many are there as may be.
fn is_full(limit: usize, count: usize) -> bool
    ensures { result ≡ is_full limit count }
{
    count >= limit
}

/// The rows from the first of a group on.
fn rows_from(rows: &[MemberRow], group: GroupId) -> &[MemberRow]
    requires { IsRising member_key rows.now }
    ensures { take_while (λ row. row.group == group) result.now ≡ filter (λ row. row.group == group) rows.now }
{
    let from = rows.partition_point(|row| row.group < group);
    &rows[from..]
}

/// The users of the rows of a group at the front of these.
fn first_users(alloc: Global, rows: &[MemberRow], group: GroupId) -> Result<Vec<UserId>, AllocError>
    ensures { IfOk result (λ users. users.items ≡ map (λ row. row.user) (take_while (λ row. row.group == group) rows.now)) }
{
    rows.iter()
        .take_while(|row| row.group == group)
        .map(|row| row.user)
        .collect(alloc)
}
