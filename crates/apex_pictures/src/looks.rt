//! What all pictures as SVG have: the look of their marks, the meaning of each mark, and their end.
ghost use Rattle.std.specs.Prelude.{◌≡◌, ◌++◌, OnOk};
ghost use Rattle.apex_pictures.specs.Looks.{end_text, meanings_text, style_text};

use apex_moments::{Part, put_all};
use std::alloc::AllocError;

/// Puts the look of the marks, and the white behind them.
pub(crate) fn put_style(text: &mut Vec<u8>) -> Result<(), AllocError>
    ensures { OnOk result (text.new.items ≡ text.old.items ++ style_text) }
{
    put_all(
        text,
        &[
            Part::Plain("<style>text{fill:#222}.core{font-weight:bold;fill:#555}.now{fill:#333}"),
            Part::Plain(".number{fill:#555;font-size:10px;text-anchor:middle}.time{stroke:#999}"),
            Part::Plain(".RUNNING{fill:#2f7d32}.READY{fill:#8fce92}.WAITING{fill:#dfe3e6}"),
            Part::Plain(".DORMANT{fill:#fff;stroke:#ddd}.owns{fill:#c62828}"),
            Part::Plain(".ring{fill:#fff;stroke:#111;stroke-width:1.5}path{stroke:#fff}"),
            Part::Plain("line{stroke-width:1.5;stroke-dasharray:3,2}"),
            Part::Plain("line.time{stroke-width:1;stroke-dasharray:none}.woken{fill:#1e88e5}"),
            Part::Plain(
                "line.woken{stroke:#1e88e5}.released{fill:#8e24aa}line.released{stroke:#8e24aa}",
            ),
            Part::Plain("path.missed{fill:none;stroke:#e53935;stroke-width:2}"),
            Part::Plain("line.missed{stroke:#e53935}.departs{fill:#c62828}"),
            Part::Plain("line.departs{stroke:#c62828;stroke-width:2;stroke-dasharray:none}"),
            Part::Plain("</style>\n<rect width='100%' height='100%' fill='#fff'/>\n"),
        ],
    )
}

/// Puts the meaning of each mark.
pub(crate) fn put_meanings(text: &mut Vec<u8>) -> Result<(), AllocError>
    ensures { OnOk result (text.new.items ≡ text.old.items ++ meanings_text) }
{
    put_all(
        text,
        &[
            Part::Plain(
                "<rect class='RUNNING' x='20' y='0' width='16' height='10'/><text x='40' y='9'>running</text>",
            ),
            Part::Plain(
                "<rect class='READY' x='105' y='0' width='16' height='10'/><text x='125' y='9'>ready</text>",
            ),
            Part::Plain(
                "<rect class='WAITING' x='180' y='0' width='16' height='10'/><text x='200' y='9'>waiting</text>",
            ),
            Part::Plain(
                "<rect class='DORMANT' x='265' y='0' width='16' height='10'/><text x='285' y='9'>dormant</text>",
            ),
            Part::Plain(
                "<rect class='owns' x='355' y='4' width='16' height='3'/><text x='375' y='9'>owns a mutex</text>",
            ),
            Part::Plain(
                "<circle class='ring' cx='475' cy='5' r='4'/><text x='485' y='9'>caller</text>",
            ),
            Part::Plain(
                "<path class='woken' d='M540,0 h10 l-5,9 z'/><text x='554' y='9'>woken</text>",
            ),
            Part::Plain(
                "<path class='released' d='M610,0 h10 l-5,9 z'/><text x='624' y='9'>released</text>",
            ),
            Part::Plain(
                "<path class='missed' d='M691,-1 h18 v12 h-18 z'/><text x='714' y='9'>missed</text>",
            ),
        ],
    )
}

/// Puts the end of the file: a script that keeps the labels in sight.
pub(crate) fn put_end(text: &mut Vec<u8>) -> Result<(), AllocError>
    ensures { OnOk result (text.new.items ≡ text.old.items ++ end_text) }
{
    put_all(
        text,
        &[
            Part::Plain("</g>\n</g>\n<script>\n"),
            Part::Plain("addEventListener('scroll',()=>document.getElementById('labels')"),
            Part::Plain(".setAttribute('transform','translate('+scrollX+',0)'))"),
            Part::Plain("\n</script>\n</svg>\n"),
        ],
    )
}
