//! An entry that is kept in the place of another one.
ghost use Rattle.std.specs.Prelude.{◌≡◌, ◌≤◌, length};
ghost use Rattle.apex_types.specs.declared.limits.TheConstants.{MOST_NOTICES};

use apex_types::{Entry, LentEntry, Notice, Notices};

/// Keeps these notices in the place of those that were kept. It writes no more than there are.
fn keep_notices(kept: &mut Notices, notices: &[Notice])
    requires { length notices.now ≤ MOST_NOTICES }
    ensures { kept.new ≡ notices.now }
{
    kept.clear();
    for notice in notices {
        kept.push(*notice);
    }
}

/// Keeps a lent entry in the place of the one that was kept. It takes no memory.
pub fn keep_in(kept: &mut Entry, entry: &LentEntry<'_>)
    ensures { kept.new ≡ entry.entry.now }
{
    kept.number = entry.number;
    kept.now = entry.now;
    kept.who = entry.who;
    kept.process = entry.process;
    kept.call = entry.call;
    kept.reply = entry.reply;
    keep_notices(&mut kept.notices, entry.notices);
}
