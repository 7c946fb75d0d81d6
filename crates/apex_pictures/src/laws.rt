//! What holds of the columns of a picture.
ghost use Rattle.std.specs.Prelude.{◌≡◌};
ghost use Rattle.apex_pictures.specs.Laws.{ColumnsAreApart, EventlessCellsStay};
ghost use Rattle.apex_pictures.specs.declared.axes.TheConstants.{COLUMN, MOST_ROOM, TICK};
ghost use Rattle.apex_pictures.specs.declared.excerpts.TheConstants.{MOST_COLUMNS};
ghost use Rattle.apex_pictures.specs.declared.frames.TheConstants.{LETTER};
ghost use Rattle.apex_pictures.specs.declared.marks.TheConstants.{MOST_LETTERS};
ghost use Rattle.apex_pictures.specs.declared.rows.TheConstants.{NO_CORE, ROW};
ghost use Rattle.apex_pictures.specs.declared.svg.TheConstants.{MOST_CALL};

/// In the SVG of every run, of a lawful table, no column begins before the end of the one before it,
/// along either axis, whatever is folded. By time, ticks without an entry have room, and entries of one
/// time stand side by side.
pub fn columns_are_apart()
    ensures { ColumnsAreApart }
{}

/// In the picture of every run no cell changes at an eventless entry: each process keeps its state,
/// its wait and its mutexes. So the cells of the column before a fold hold up to the column behind it.
pub fn eventless_cells_stay()
    ensures { EventlessCellsStay }
{}

/// Each limit is the number of this profile.
pub fn limits_of_the_profile()
    ensures most_columns { MOST_COLUMNS ≡ 2000 }
    ensures column { COLUMN ≡ 32 }
    ensures tick { TICK ≡ 8 }
    ensures most_room { MOST_ROOM ≡ 32000 }
    ensures most_call { MOST_CALL ≡ 60 }
    ensures row { ROW ≡ 24 }
    ensures no_core { NO_CORE ≡ 255 }
    ensures letter { LETTER ≡ 7 }
    ensures most_letters { MOST_LETTERS ≡ 20000 }
{}
