//! Rows: a line that asks one question, with the answer that is wanted after an arrow.
use crate::told::answered;
use crate::variables::State;
use crate::{
    Refused, Words, expressions, mails, names, read_u64, read_usize, searching, starting,
    statements, substituting, text_of,
};
use std::alloc::Global;

const NO_ROW: Refused = Refused::Misread("no row asks so");

/// The answer that comes.
pub fn answer(alloc: Global, state: &State, words: &[Vec<u8>]) -> Result<Words, Refused> {
    let Some((key, rest)) = words.split_first() else {
        return Err(NO_ROW);
    };
    match (text_of(key), rest) {
        ("find", [text, area]) => searching::find(alloc, text, area, true),
        ("find-case", [text, area]) => searching::find(alloc, text, area, false),
        ("found", [text, area]) => searching::found(alloc, text, area),
        ("count", [text, area]) => searching::count(alloc, text, area, true),
        ("count-case", [text, area]) => searching::count(alloc, text, area, false),
        ("expr", [text]) => expressions::expression(alloc, text),
        ("same-expr", [text, other]) => expressions::same(alloc, text, other),
        ("reads", [text]) => expressions::reads(alloc, text),
        ("has-cut", [text]) => expressions::has_cut(alloc, text),
        ("rcfile", [text]) => statements::whole(alloc, text),
        ("inside", [depth, text]) => statements::inside(alloc, read_u64(depth)?, text),
        ("counted", [text]) => statements::counted(alloc, text),
        _ => values_answer(alloc, state, text_of(key), rest),
    }
}

fn values_answer(
    alloc: Global,
    state: &State,
    key: &str,
    words: &[Vec<u8>],
) -> Result<Words, Refused> {
    match (key, words) {
        ("expand", [mode, text, outputs @ ..]) => {
            let mode = substituting::mode_of(mode)?;
            substituting::expanded(alloc, &state.vars, mode, text, outputs)
        }
        ("length", [mode, text]) => {
            let mode = substituting::mode_of(mode)?;
            substituting::length(alloc, &state.vars, mode, text)
        }
        ("commands", [mode, text]) => {
            substituting::commanded(alloc, substituting::mode_of(mode)?, text)
        }
        ("get", [name]) => answered(state.value(name)),
        ("argument-at", [number]) => answered(state.argument(read_usize(number)?)),
        ("arguments", []) => answered(state.arguments()),
        ("marks", []) => answered(state.marks()),
        ("export", []) => answered(state.exported()),
        ("export-count", []) => answered(state.export_count()),
        _ => mail_answer(alloc, key, words),
    }
}

fn mail_answer(alloc: Global, key: &str, words: &[Vec<u8>]) -> Result<Words, Refused> {
    match (key, words) {
        ("split", [mail]) => answered(mails::parts(alloc, mail)),
        ("area", [place, mail]) => mails::area_of(alloc, place, mail),
        ("piece", [feed, kind, raw, mail]) => mails::piece_of(alloc, feed, kind, raw, mail),
        ("needs-line", [renew, mail]) => mails::line_needed(alloc, renew, mail),
        ("from-line", [who, moment]) => mails::line_of(alloc, who, moment),
        ("prepare", [renew, logname, moment, mail]) => {
            mails::prepared(alloc, renew, logname, moment, mail)
        }
        ("prepare-whole", [renew, logname, moment, mail]) => {
            mails::prepared_whole(alloc, renew, logname, moment, mail)
        }
        _ => name_answer(alloc, key, words),
    }
}

fn name_answer(alloc: Global, key: &str, words: &[Vec<u8>]) -> Result<Words, Refused> {
    match (key, words) {
        ("grown", [text, more]) => answered(names::grown(alloc, text, more)),
        ("name", [text]) => names::name(alloc, text),
        ("seen-from", [base, name]) => names::seen(alloc, base, name),
        ("number", [text]) => answered(names::number(alloc, text)),
        ("digits", [text]) => answered(names::count(alloc, text)),
        ("blank", [text]) => answered(names::blank(alloc, text)),
        ("folded", [text]) => answered(names::folded(alloc, text)),
        ("environment", entries) => answered(starting::environment(alloc, entries)),
        ("started", words) => starting::started(alloc, words),
        ("machine", [text]) => answered(starting::machine(alloc, text)),
        _ => Err(NO_ROW),
    }
}
