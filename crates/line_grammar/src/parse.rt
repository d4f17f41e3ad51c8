//! Reading one line.
ghost use Rattle.std.specs.Prelude.{MatchResult};
ghost use Rattle.line_grammar.specs.Laws.{IsRead, Refuses};
ghost use Rattle.line_grammar.specs.Scanned.{Shows, read_kept, parse_in};

use crate::dialect::Dialect;
use crate::element::Head;
use crate::fault::LineFault;
use crate::limits::MOST_OPEN;
use crate::line_parser::LineParser;
use text_tokens::next_token;

/// The line, none where it has no tokens, or the fault of its first token that has one.
fn scan_line(
    parser: &mut LineParser,
    dialect: Dialect,
    text: &[u8],
) -> Result<Option<Head>, LineFault>
    ensures { Shows (read_kept parser.new) result (parse_in dialect text.now) }
{
    parser.reset();
    let mut from = 0;
    while let Some(cut) = next_token(dialect, text, from) {
        let at = cut.at as u64;
        if !parser.advance(dialect, cut.token)? {
            return Err(LineFault::Syntax { at });
        }
        if parser.signs() > MOST_OPEN {
            return Err(LineFault::TooDeep { at });
        }
        from = cut.end;
    }
    if parser.is_empty() {
        return Ok(None);
    }
    match parser.finish()? {
        Some(head) => Ok(Some(head)),
        None => Err(LineFault::Syntax {
            at: text.len() as u64,
        }),
    }
}

/// What a line says in a language, none where it has no tokens, or its first fault. The parser then has the elements of
/// its expression. It takes time linear in the length of the line.
pub fn parse_line(
    parser: &mut LineParser,
    dialect: Dialect,
    text: &[u8],
) -> Result<Option<Head>, LineFault>
    ensures { MatchResult result (λ head. IsRead dialect text.now (read_kept parser.new head))
        (Refuses dialect text.now) }
{
    scan_line(parser, dialect, text)
}
