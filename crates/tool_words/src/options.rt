//! Options and a layout, word by word.

ghost use Rattle.std.specs.Prelude.{◌≡◌, None, Err, IfOk, OnOk, Some, if◌then◌else◌};
ghost use Rattle.mangle_options.specs.Settings.{reserved_in};
ghost use Rattle.tool_words.specs.Readings.{HasPut, IsRead, IsReadNext};
ghost use Rattle.tool_words.specs.Words.{AreAsked, Reading as ReadingSoFar, flags_in, flags_with, read_word, settings_of};

use crate::command::{Layout, WordError};
use mangle_options::MangleOptions;
use oxc_str::CompactStr;
use std::alloc::{AllocError, Global};
use std::collections::HashSet;

// What was read so far.
#[derive(Drop)]
pub struct Reading {
    options: MangleOptions,
    layout: Layout,
    // Whether the next word is a name to reserve.
    reserves: bool,
}

/// The options and the layout that these words ask for, `--pretty` being one of them if `layouts`.
///
/// `BadArgument` comes exactly where the words ask for none; `Memory` may come at any words.
pub fn read_options(
    alloc: Global,
    words: &[CompactStr],
    layouts: bool,
) -> Result<(MangleOptions, Layout), WordError>
    ensures asked { IfOk result (λ r. AreAsked (settings_of layouts words.now) r.0 r.1) }
    ensures bad { result ≡ Err WordError.BadArgument → settings_of layouts words.now ≡ None }
{
    let mut reading = Reading {
        options: MangleOptions::new(alloc),
        layout: Layout::Compact,
        reserves: false,
    };
    for word in words {
        take_word(alloc, layouts, word, &mut reading)?;
    }
    if reading.reserves {
        return Err(WordError::BadArgument);
    }
    Ok((reading.options, reading.layout))
}

// Reads one word more.
fn take_word(
    alloc: Global,
    layouts: bool,
    word: &CompactStr,
    reading: &mut Reading,
) -> Result<(), WordError>
    ensures taken { OnOk result ((r : ReadingSoFar) → IsRead r reading.old
        → IsReadNext (read_word layouts r word.now) reading.new) }
    ensures bad { result ≡ Err WordError.BadArgument → (r : ReadingSoFar) → IsRead r reading.old
        → read_word layouts r word.now ≡ None }
{
    if reading.reserves {
        reading.reserves = false;
        put(alloc, &mut reading.options.reserved, word)?;
        return Ok(());
    }
    if word.as_str() == "--reserve" {
        reading.reserves = true;
        return Ok(());
    }
    if set(
        layouts,
        word.as_str(),
        &mut reading.options,
        &mut reading.layout,
    ) {
        Ok(())
    } else {
        Err(WordError::BadArgument)
    }
}

// Puts a copy of the name into the set. Err is want of memory.
fn put(alloc: Global, names: &mut HashSet<CompactStr>, name: &CompactStr) -> Result<(), AllocError>
    ensures { OnOk result (HasPut name.now names.old.keys names.new.keys) }
{
    names.insert(name.try_clone(alloc)?)?;
    Ok(())
}

// Sets what the word sets by itself, and answers whether it sets something.
#[tactic(auto, unfolding(crate::specs::Words::flags_with))]
fn set(layouts: bool, word: &str, options: &mut MangleOptions, layout: &mut Layout) -> bool
    ensures flags { flags_with layouts (flags_in options.old layout.old) word.now
        ≡ (if result then Some (flags_in options.new layout.new) else None) }
    ensures reserved { reserved_in options.new ≡ reserved_in options.old }
{
    if word == "--top-level" {
        options.top_level = Some(true);
        return true;
    }
    if word == "--no-top-level" {
        options.top_level = Some(false);
        return true;
    }
    if word == "--keep-fn-names" {
        options.keep_names.function = true;
        return true;
    }
    if word == "--keep-class-names" {
        options.keep_names.class = true;
        return true;
    }
    if word == "--debug" {
        options.debug = true;
        return true;
    }
    if word == "--pretty" && layouts {
        *layout = Layout::Pretty;
        return true;
    }
    false
}
