//! Which partition a value is of.

use std::marker::Brand;

/// Which partition a value is of: its book, the speakers there, its table, and the cell in which it
/// publishes fronts, if it has readers. Each call that opens a partition picks it.
pub trait Naming {
    ghost use Rattle.std.specs.Prelude.{ℕ, Option};
    ghost use Rattle.atomic_table.specs.Seated.{TableId};
    ghost use Rattle.logbook.specs.Pages.{Book};
    ghost use Rattle.apex_types.specs.declared.entries.Who.{Who};
    ghost use Rattle.apex_machine.specs.table.Table.{Table};

    ghost book: { Book };

    ghost scribe: { ℕ };

    ghost voice: { Who → ℕ };

    ghost table: { Table };

    ghost cell: { Option TableId };
}

impl Naming for Brand {
    ghost use Rattle.std.specs.Prelude.{[], None};
    ghost use Rattle.apex_machine.specs.declared.profiles.Profile.TheVariants as profiles;

    ghost book = { record { number = 0; log_name = 0; cells_name = 0 } };

    ghost scribe = { 0 };

    ghost voice = { λ who. 0 };

    ghost table = { record {
      profile = profiles.One;
      cores = 0;
      limit = 0;
      processes = [];
      semaphores = [];
      buffers = [];
      blackboards = [];
      event_flags = [];
      mutexes = [];
      init = [];
    } };

    ghost cell = { None };
}
