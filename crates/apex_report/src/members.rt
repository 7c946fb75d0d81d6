//! The members of a report's rows, added to a line in a form.
ghost use Rattle.std.specs.Prelude.{◌≡◌, ◌+◌, ◌≤◌, ◌++◌, flat_map, length, sum_by};
ghost use Rattle.arrayvec.specs.ArrayVec.{array_vec_len};
ghost use Rattle.apex_types.specs.declared.limits.TheConstants.{MOST_NAME};
ghost use Rattle.apex_report.specs.declared.lines.TheConstants.{LINE_ROOM};
ghost use Rattle.apex_report.specs.declared.members.TheConstants.{MOST_STRING};
ghost use Rattle.apex_report.specs.Members.{key_in, name_in, room_of, text_of, value_in};

use crate::lines::Line;
use apex_json::{Form, MOST_ESCAPE, add_json, pick};
use apex_texts::{put, put_bytes, put_long_number};
use apex_types::MOST_NAME;

/// A member of a row: its key, and a number, or none.
#[derive(Clone, Copy)]
pub(crate) struct Member(pub &'static str, pub Option<u64>);

/// The most bytes of a name as a string.
pub(crate) const MOST_STRING: usize = MOST_ESCAPE * MOST_NAME + 2;

/// Adds a name, which is a string in JSON.
#[tactic(auto, using(std::proofs::Common::append_assoc))]
pub(crate) fn put_name(line: &mut Line, form: Form, name: &[u8])
    requires few { length name.now ≤ MOST_NAME }
    requires room { array_vec_len line.old + MOST_STRING ≤ LINE_ROOM }
    ensures text { line.new.items ≡ line.old.items ++ name_in form name.now }
    ensures short { array_vec_len line.new ≤ array_vec_len line.old + MOST_STRING }
{
    match form {
        Form::Text => put_bytes(line, name),
        Form::Json => {
            put(line, "\"");
            add_json(line, name);
            put(line, "\"");
        }
    }
}

/// Adds a key behind others.
#[tactic(auto, using(std::proofs::Common::append_assoc))]
pub(crate) fn put_key(line: &mut Line, form: Form, key: &str)
    requires { array_vec_len line.old + length key.now + 6 ≤ LINE_ROOM }
    ensures text { line.new.items ≡ line.old.items ++ key_in form key.now }
    ensures short { array_vec_len line.new ≤ array_vec_len line.old + length key.now + 6 }
{
    put(line, pick(form, " ", ",\""));
    put(line, key);
    put(line, pick(form, "=", "\":"));
}

/// Adds a number, or the sign for none.
fn put_value(line: &mut Line, form: Form, value: Option<u64>)
    requires { array_vec_len line.old + 20 ≤ LINE_ROOM }
    ensures text { line.new.items ≡ line.old.items ++ value_in form value }
    ensures short { array_vec_len line.new ≤ array_vec_len line.old + 20 }
{
    match value {
        Some(number) => put_long_number(line, number),
        None => put(line, pick(form, "-", "null")),
    }
}

#[tactic(auto, using(std::proofs::Common::append_assoc))]
pub(crate) fn put_member(line: &mut Line, form: Form, member: &Member)
    requires { array_vec_len line.old + room_of member.now ≤ LINE_ROOM }
    ensures text { line.new.items ≡ line.old.items ++ text_of form member.now }
    ensures short { array_vec_len line.new ≤ array_vec_len line.old + room_of member.now }
{
    put_key(line, form, member.0);
    put_value(line, form, member.1);
}

/// Adds members behind others.
pub(crate) fn put_members(line: &mut Line, form: Form, members: &[Member])
    requires { array_vec_len line.old + sum_by room_of members.now ≤ LINE_ROOM }
    ensures text { line.new.items ≡ line.old.items ++ flat_map (text_of form) members.now }
    ensures short { array_vec_len line.new ≤ array_vec_len line.old + sum_by room_of members.now }
{
    for member in members {
        put_member(line, form, member);
    }
}
