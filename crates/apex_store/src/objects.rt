//! Objects of any kind: the three services that each kind has, and how a call finds its object.

ghost use Rattle.std.specs.Prelude.{◌≡◌, ℕ, ◌<◌, ◌≤◌, [], length};
ghost use Rattle.apex_types.specs.declared.calls.ObjectCall.{ObjectCall};
ghost use Rattle.apex_machine.specs.services.Callers.{IsReadyCaller};
ghost use Rattle.apex_machine.specs.services.Objects as objects;
ghost use Rattle.apex_machine.specs.services.Objects.{ObjectKind};
ghost use Rattle.apex_machine.specs.processes.Roster.{Roster};
ghost use Rattle.apex_machine.specs.services.Rows.{Leaves};
ghost use Rattle.apex_machine.specs.services.Premises.{CanServe};
ghost use Rattle.apex_machine.specs.table.Table.{IsKnownObject};

use crate::store::Store;
use apex_types::{Caller, Id, Notices, ObjectCall, Reply, ReturnCode};

/// An object as its services see it.
pub trait Object: Drop {
    /// The kind of its ids.
    type IdKind: Copy;

    /// The services that this kind alone has.
    type KindService: Copy;

    /// The entry of an object of the kind in the table.
    ghost Config: { Type 0 };

    ghost kind: { ObjectKind Config Self Self.KindService };

    /// The premise of the kind's services about the store, for the object at a place.
    ghost IsThere: { Roster → ℕ → Type 0 };

    /// Whether the object is created: CREATE answered NO_ERROR for it.
    fn is_created(&self) -> bool
        ensures { result ≡ kind.created self.now };

    /// The object is created from now on.
    fn make(&mut self)
        ensures { self.new ≡ kind.made self.old };

    /// The two numbers of the object's status.
    fn status<S: Store>(&self, store: &S, id: Id<Self::IdKind>) -> Reply
        requires there { IsThere (S.roster store.now) id }
        ensures { result ≡ kind.status (S.roster store.now) self.now id };

    /// Carries out a service that this kind alone has.
    fn serve<S: Store>(
        &mut self,
        store: &mut S,
        id: Id<Self::IdKind>,
        caller: &Caller,
        service: &Self::KindService,
        notices: &mut Notices,
    ) -> Reply
        requires there { IsThere (S.roster store.old) id }
        requires caller { IsReadyCaller (S.roster store.old) caller.now }
        requires can { CanServe (S.roster store.old) notices.old }
        ensures { Leaves (kind.service (S.roster store.old) self.old id caller.now service.now)
            (S.roster store.new) self.new result notices.old notices.new };
}

/// CREATE: INVALID_MODE in NORMAL, NO_ACTION if the object is created.
fn create<S: Store, O: Object>(store: &S, object: &mut O) -> Reply
    ensures { Leaves (objects.create O.kind (S.roster store.now) object.old)
        (S.roster store.now) object.new result [] [] }
{
    if store.mode().is_normal() {
        return Reply::Code(ReturnCode::InvalidMode);
    }
    if object.is_created() {
        return Reply::Code(ReturnCode::NoAction);
    }
    object.make();
    Reply::Code(ReturnCode::NoError)
}

/// GET_ID: INVALID_CONFIG if the object is not created.
fn get_id<O: Object>(object: &O, id: Id<O::IdKind>) -> Reply
    ensures { (roster : Roster) → Leaves (objects.get_id O.kind roster object.now id)
        roster object.now result [] [] }
{
    if object.is_created() {
        Reply::Value(u64::from(id.number()))
    } else {
        Reply::Code(ReturnCode::InvalidConfig)
    }
}

/// GET_STATUS: INVALID_PARAM if the object is not created.
fn get_status<S: Store, O: Object>(store: &S, object: &O, id: Id<O::IdKind>) -> Reply
    requires there { O.IsThere (S.roster store.now) id }
    ensures { Leaves (objects.get_status O.kind (S.roster store.now) object.now id)
        (S.roster store.now) object.now result [] [] }
{
    if object.is_created() {
        object.status(store, id)
    } else {
        Reply::Code(ReturnCode::InvalidParam)
    }
}

/// Any service of a kind, on one object.
fn serve_one<S: Store, O: Object>(
    store: &mut S,
    object: &mut O,
    id: Id<O::IdKind>,
    caller: &Caller,
    call: &ObjectCall<Id<O::IdKind>, O::KindService>,
    notices: &mut Notices,
) -> Reply
    requires there { O.IsThere (S.roster store.old) id }
    requires caller { IsReadyCaller (S.roster store.old) caller.now }
    requires can { CanServe (S.roster store.old) notices.old }
    ensures { Leaves (objects.object_service O.kind
        (S.roster store.old) object.old id caller.now call.now)
        (S.roster store.new) object.new result notices.old notices.new }
{
    match call {
        ObjectCall::Create(_) => create(store, object),
        ObjectCall::GetId(_) => get_id(object, id),
        ObjectCall::GetStatus(_) => get_status(store, object, id),
        ObjectCall::KindService(_, service) => object.serve(store, id, caller, service, notices),
    }
}

/// The answer to a call whose name no entry has: CREATE tests the mode first.
fn no_entry<S: Store, O: Object>(
    store: &S,
    all: &[O],
    call: &ObjectCall<Id<O::IdKind>, O::KindService>,
) -> Reply
    ensures { Leaves (objects.no_entry (S.roster store.now) all.now call.now)
        (S.roster store.now) all.now result [] [] }
{
    match call {
        ObjectCall::Create(_) if store.mode().is_normal() => Reply::Code(ReturnCode::InvalidMode),
        _ => Reply::Code(ReturnCode::InvalidConfig),
    }
}

/// Carries out a call on the objects of one kind. The object that it names is one of these, or its
/// name is no entry's.
pub fn serve_object<S: Store, O: Object>(
    store: &mut S,
    all: &mut [O],
    caller: &Caller,
    call: &ObjectCall<Id<O::IdKind>, O::KindService>,
    notices: &mut Notices,
) -> Reply
    requires known { IsKnownObject (length all.old) call.now }
    requires there { (i : ℕ) → i < length all.old → O.IsThere (S.roster store.old) i }
    requires caller { IsReadyCaller (S.roster store.old) caller.now }
    requires can { CanServe (S.roster store.old) notices.old }
    ensures { Leaves (objects.object_deed O.kind (S.roster store.old) all.old caller.now call.now)
        (S.roster store.new) all.new result notices.old notices.new }
{
    match call.object() {
        Some(id) => serve_one(store, &mut all[id.place()], id, caller, call, notices),
        None => no_entry(store, all, call),
    }
}
