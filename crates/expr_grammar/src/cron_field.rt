//! Reads a field of a cron: its items from left to right, and whether they may stand together.
ghost use Rattle.std.specs.Prelude.{◌≡◌, ◌+◌, ◌^◌, ◌<◌, ◌&&◌, List, length};
ghost use Rattle.plain_words.specs.Lists.{first_some};
ghost use Rattle.plain_words.specs.Bytes.{comma};
ghost use Rattle.expressions.specs.Pieces.{cut, placed};
ghost use Rattle.expressions.specs.CronItems as cron;
ghost use Rattle.expressions.specs.Spelling.{AreRows, IsRow};
ghost use Rattle.expressions.specs.ExpressionFaults.{field_fault, item_fault, item_faults};
ghost use Rattle.expr_grammar.specs.Answers.{Answers};
ghost use Rattle.expr_grammar.specs.Items.{HasStep, IsRead, Summarizes, field_of, item_of};
ghost use Rattle.expr_grammar.specs.WordsLeft.{piece_of};

use crate::cut::split_once;
use crate::fault::ExprFault;
use crate::field::Field;
use crate::item::{Item, is_in_range};
use crate::items::{Items, no_items, with_item};
use crate::row::row;
use crate::words::Piece;

/// Reads a field of a cron: its items, and then whether they may stand together.
pub(crate) fn read_field(field: Field, word: Piece) -> Result<Items, ExprFault>
    requires { word.at + length word.text.now < 2 ^ 64 }
    ensures { Answers result (field_fault (field_of field) (piece_of word.entry)) (IsRead (field_of field) word.entry.text.now) }
{
    match read_items(field, word) {
        Ok(items) => {
            if are_mixed(items) {
                Err(ExprFault::bad_mix(word.at))
            } else {
                Ok(items)
            }
        }
        Err(fault) => Err(fault),
    }
}

/// Whether one of several items must stand alone.
fn are_mixed(items: Items) -> bool
    ensures { result ≡ (items.several && items.alone) }
{
    items.several && items.alone
}

/// Reads the items of a field from left to right.
fn read_items(field: Field, word: Piece) -> Result<Items, ExprFault>
    requires { word.at + length word.text.now < 2 ^ 64 }
    ensures { Answers result (first_some (item_faults (field_of field) (placed word.entry.at (cut comma word.entry.text.now))))
        (λ kept. (all : List cron.Item) × AreRows (field_of field) (cut comma word.entry.text.now) all × Summarizes (field_of field) kept all) }
{
    let mut items = no_items(field);
    let mut at = word.at;
    let mut rest = word.text;
    while let Some((text, behind)) = split_once(b',', rest) {
        match read_item(field, Piece { text, at }) {
            Ok(item) => items = with_item(field, items, item),
            Err(fault) => return Err(fault),
        }
        at = at + text.len() + 1;
        rest = behind;
    }
    match read_item(field, Piece { text: rest, at }) {
        Ok(item) => Ok(with_item(field, items, item)),
        Err(fault) => Err(fault),
    }
}

/// Reads an item: its spelling, and then its numbers.
fn read_item(field: Field, piece: Piece) -> Result<Item, ExprFault>
    ensures answer { Answers result (item_fault (field_of field) piece.entry.at (cron.row (field_of field) piece.entry.text.now))
        (λ item. IsRow (field_of field) piece.entry.text.now (item_of item) × HasStep (item_of item)) }
{
    match row(field, piece.text) {
        None => Err(ExprFault::bad_number(piece.at)),
        Some(item) if !is_in_range(field, item) => Err(ExprFault::out_of_range(piece.at)),
        Some(item) => Ok(item),
    }
}
