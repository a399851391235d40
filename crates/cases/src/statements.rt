//! Rows of rcfiles with their statements, each a word: `NAME=VALUE`, `-NAME` for an unsetting, `!LINE TEXT`
//! for a line that isn't understood, and for a recipe `:FLAGS:LOCK`, its conditions, each after `*`, and
//! its action: `>` before a mailbox, `|` before a program, `@` before addresses, `stdout`, or `{}` for a
//! block.
use crate::told::{answered, push_number, text_and_number};
use crate::{Refused, Words, one_number, one_word, word_of};
use pm_bytes::Memory;
use pm_recipe::{
    Action, Condition, Flags, RcRefused, Recipe, Statement, Statements, Weight, copy_statements,
    read_rc,
};
use std::alloc::Global;

/// All statements of a text, those of a block after it between `{` and `}`.
pub fn whole(alloc: Global, text: &[u8]) -> Result<Words, Refused> {
    match read_rc(alloc, text) {
        Ok(rc) => answered(nested(alloc, &rc.statements)),
        Err(refused) => refusal(alloc, refused),
    }
}

/// The statements that stand in so many blocks of a text, each the last statement of the one around it.
pub fn inside(alloc: Global, depth: u64, text: &[u8]) -> Result<Words, Refused> {
    match read_rc(alloc, text) {
        Ok(rc) => answered(all_inside(alloc, depth, &rc.statements)),
        Err(refused) => refusal(alloc, refused),
    }
}

fn all_inside(alloc: Global, depth: u64, statements: &Statements) -> Result<Words, Memory> {
    match block_at(depth, statements) {
        Some(inner) => all_shown(alloc, inner.as_slice()),
        None => one_word(alloc, "no block"),
    }
}

fn block_at(depth: u64, statements: &Statements) -> Option<&Statements> {
    let mut statements = statements;
    for _ in 0..depth {
        let last = statements.as_slice().last().and_then(|last| block_of(last));
        let Some(inner) = last else {
            return None;
        };
        statements = inner;
    }
    Some(statements)
}

fn all_shown(alloc: Global, statements: &[Statement]) -> Result<Words, Memory> {
    let mut words = Vec::new(alloc);
    for statement in statements {
        words.push(shown(alloc, statement)?)?;
    }
    Ok(words)
}

/// How many bytes a text has, and how many statements a copy of what it spells has outside blocks.
pub fn counted(alloc: Global, text: &[u8]) -> Result<Words, Refused> {
    match read_rc(alloc, text) {
        Ok(rc) => answered(counts(alloc, text, rc.statements.as_slice())),
        Err(refused) => refusal(alloc, refused),
    }
}

fn counts(alloc: Global, text: &[u8], statements: &[Statement]) -> Result<Words, Memory> {
    let copied = copy_statements(alloc, statements)?.len();
    let mut words = one_number(alloc, text.len() as u64)?;
    push_number(alloc, &mut words, copied as u64)?;
    Ok(words)
}

fn refusal(alloc: Global, refused: RcRefused) -> Result<Words, Refused> {
    match refused {
        RcRefused::TooLong { length } => answered(text_and_number(alloc, "too-long", length)),
        RcRefused::Memory => Err(Refused::Memory),
    }
}

// A list of statements that is gone through, and the place in it.
#[derive(Clone, Copy)]
struct Walk<'a> {
    list: &'a [Statement],
    at: usize,
}

fn nested(alloc: Global, statements: &Statements) -> Result<Words, Memory> {
    let mut words = Vec::new(alloc);
    push_nested(alloc, &mut words, statements)?;
    Ok(words)
}

fn push_nested(alloc: Global, words: &mut Words, statements: &Statements) -> Result<(), Memory> {
    let mut walks = Vec::new(alloc);
    push_walk(&mut walks, statements.as_slice(), 0)?;
    for _ in 0..u64::MAX {
        let Some(Walk { list, at }) = walks.pop() else {
            break;
        };
        match list.get(at) {
            Some(statement) => {
                push_walk(&mut walks, list, at.saturating_add(1))?;
                push_inner(alloc, words, &mut walks, statement)?;
            }
            None => end_block(alloc, words, !walks.is_empty())?,
        }
    }
    Ok(())
}

fn push_walk<'a>(
    walks: &mut Vec<Walk<'a>>,
    list: &'a [Statement],
    at: usize,
) -> Result<(), Memory> {
    walks.push(Walk { list, at })?;
    Ok(())
}

// Shows a statement. Where it is a block, its statements are gone through next.
fn push_inner<'a>(
    alloc: Global,
    words: &mut Words,
    walks: &mut Vec<Walk<'a>>,
    statement: &'a Statement,
) -> Result<(), Memory> {
    words.push(shown(alloc, statement)?)?;
    match block_of(statement) {
        Some(inner) => {
            words.push(word_of(alloc, "{")?)?;
            push_walk(walks, inner.as_slice(), 0)
        }
        None => Ok(()),
    }
}

fn end_block(alloc: Global, words: &mut Words, is_block: bool) -> Result<(), Memory> {
    if is_block {
        words.push(word_of(alloc, "}")?)?;
    }
    Ok(())
}

// The block of a statement.
fn block_of(statement: &Statement) -> Option<&Statements> {
    match statement {
        Statement::Recipe(recipe) => match &recipe.action {
            Action::Block(inner) => Some(inner),
            _ => None,
        },
        _ => None,
    }
}

fn shown(alloc: Global, statement: &Statement) -> Result<Vec<u8>, Memory> {
    let mut out = Vec::new(alloc);
    push_statement(alloc, &mut out, statement)?;
    Ok(out)
}

fn push_statement(alloc: Global, out: &mut Vec<u8>, statement: &Statement) -> Result<(), Memory> {
    match statement {
        Statement::Assign { name, value } => {
            push_marked(out, name.as_slice(), b"=")?;
            push_marked(out, value.as_slice(), b"")
        }
        Statement::Unset { name } => push_marked(out, b"-", name.as_slice()),
        Statement::Defect { line, text } => push_defect(alloc, out, *line, text.as_slice()),
        Statement::Recipe(recipe) => push_recipe(alloc, out, recipe),
    }
}

fn push_defect(alloc: Global, out: &mut Vec<u8>, line: u64, text: &[u8]) -> Result<(), Memory> {
    let mark = format!(in alloc; "!{line} ")?;
    push_marked(out, mark.as_bytes(), text)
}

fn push_recipe(alloc: Global, out: &mut Vec<u8>, recipe: &Recipe) -> Result<(), Memory> {
    out.extend_from_slice(b":")?;
    push_flags(out, recipe.flags)?;
    if let Some(lock) = &recipe.lock {
        out.extend_from_slice(b":")?;
        out.extend_from_slice(lock.as_slice())?;
    }
    for condition in &recipe.conditions {
        push_condition(alloc, out, condition)?;
    }
    push_action(out, &recipe.action)
}

fn push_flags(out: &mut Vec<u8>, flags: Flags) -> Result<(), Memory> {
    let letters = [
        (flags.search_head, b'H'),
        (flags.search_body, b'B'),
        (flags.distinguish, b'D'),
        (flags.feed_head, b'h'),
        (flags.feed_body, b'b'),
        (flags.filter, b'f'),
        (flags.copy, b'c'),
        (flags.wait, b'w'),
        (flags.wait_quiet, b'W'),
        (flags.ignore, b'i'),
        (flags.raw, b'r'),
        (flags.and_chain, b'A'),
        (flags.and_ok, b'a'),
        (flags.or_else, b'E'),
        (flags.on_error, b'e'),
    ];
    for (set, letter) in letters {
        if set {
            out.push(letter)?;
        }
    }
    Ok(())
}

fn push_condition(alloc: Global, out: &mut Vec<u8>, condition: &Condition) -> Result<(), Memory> {
    let weight = match condition.weight {
        Weight::None => format!(in alloc; " *")?,
        Weight::Bad => format!(in alloc; " *bad ")?,
        Weight::Some { w, x } => format!(in alloc; " *{w}^{x} ")?,
    };
    push_marked(out, weight.as_bytes(), condition.text.as_slice())
}

fn push_action(out: &mut Vec<u8>, action: &Action) -> Result<(), Memory> {
    match action {
        Action::Mailbox(text) => push_marked(out, b" >", text.as_slice()),
        Action::Pipe(line) => push_marked(out, b" |", line.as_slice()),
        Action::Capture { name, line } => {
            push_marked(out, b" ", name.as_slice())?;
            push_marked(out, b"|", line.as_slice())
        }
        Action::Forward(text) => push_marked(out, b" @", text.as_slice()),
        Action::WriteOut => push_marked(out, b" stdout", b""),
        Action::Block(_) => push_marked(out, b" {}", b""),
    }
}

fn push_marked(out: &mut Vec<u8>, mark: &[u8], text: &[u8]) -> Result<(), Memory> {
    out.extend_from_slice(mark)?;
    out.extend_from_slice(text)?;
    Ok(())
}
