//! The words after the first, as options.

ghost use Rattle.std.specs.Prelude.{◌≡◌, ◌<◌, ◌≤◌, ◌||◌, not, is_none, length, drop, false, true, MatchOption, None, option_map, IfOk, IfSome};
ghost use Rattle.std.specs.List.{list_all, list_any};
ghost use Rattle.std.specs.Str.{bytes_eq};
ghost use Rattle.tl_lists.specs.Lists.{distinct};
ghost use Rattle.tl_text.specs.Words.{and_then_settings, settings, are_sound as sound, is_flag as flag, is_summary, is_whole, value_of as value_in, whole_setting};
ghost use Rattle.tl_text.specs.Given.{seen, all_seen, texts};

use std::alloc::{AllocError, Global};

/// An option as it was given. The flag has no value.
#[derive(Clone, Copy)]
pub struct Given<'a> {
    pub name: &'a str,
    pub value: Option<&'a str>,
}

fn is_flag(word: &str) -> bool
    ensures { result ≡ flag word.now }
{
    word == "--summary"
}

// The option that is one word, where the word is one.
fn whole(word: &str) -> Option<Given<'_>>
    ensures { MatchOption result (is_whole word.now ≡ false)
        (λ given. (is_whole word.now ≡ true) × (seen given ≡ whole_setting word.now)) }
{
    if is_flag(word) {
        return Some(Given {
            name: word,
            value: None,
        });
    }
    let (name, value) = word.split_once('=')?;
    Some(Given {
        name,
        value: Some(value),
    })
}

// The first option of words, and how many of them it takes, unless it lacks its value.
fn next_setting<'a>(words: &[&'a str]) -> Option<(Given<'a>, usize)>
    requires { 0 < length words.now }
    ensures next { MatchOption result (settings (texts words.now) ≡ None) (λ p. settings (texts words.now)
        ≡ and_then_settings (seen p.0) (settings (texts (drop p.1 words.now)))) }
    ensures taken { IfSome result (λ p. (0 < p.1) × (p.1 ≤ length words.now)) }
{
    if let Some(given) = whole(words[0]) {
        return Some((given, 1));
    }
    if words.len() < 2 {
        return None;
    }
    let given = Given {
        name: words[0],
        value: Some(words[1]),
    };
    Some((given, 2))
}

/// All options of words, unless one lacks its value.
pub fn settings_of<'a>(
    alloc: Global,
    words: &[&'a str],
) -> Result<Option<Vec<Given<'a>>>, AllocError>
    ensures { IfOk result (λ all. option_map (λ v. all_seen v.items) all ≡ settings (texts words.now)) }
{
    let mut all = Vec::new(alloc);
    let mut start = 0;
    while start < words.len() {
        let Some((given, taken)) = next_setting(words.split_at(start).1) else {
            return Ok(None);
        };
        all.push(given)?;
        start += taken;
    }
    Ok(Some(all))
}

fn has_name(settings: &[Given<'_>], name: &str) -> bool
    ensures { result ≡ list_any (λ s. bytes_eq name.now s.name) (all_seen settings.now) }
{
    settings.iter().any(|given| name == given.name)
}

fn are_distinct(settings: &[Given<'_>]) -> bool
    ensures { result ≡ distinct (λ s t. bytes_eq s.name t.name) (all_seen settings.now) }
{
    for i in 0..settings.len() {
        if has_name(&settings[i + 1..], settings[i].name) {
            return false;
        }
    }
    true
}

fn is_among(names: &[&str], name: &str) -> bool
    ensures { result ≡ list_any (bytes_eq name.now) (texts names.now) }
{
    names.iter().any(|other| name == *other)
}

fn are_named(names: &[&str], settings: &[Given<'_>]) -> bool
    ensures { result ≡ list_all (λ s. list_any (bytes_eq s.name) (texts names.now)) (all_seen settings.now) }
{
    settings.iter().all(|given| is_among(names, given.name))
}

fn is_flag_bare(settings: &[Given<'_>]) -> bool
    ensures { result ≡ list_all (λ s. not (flag s.name) || is_none s.value) (all_seen settings.now) }
{
    settings
        .iter()
        .all(|given| !is_flag(given.name) || given.value.is_none())
}

/// Whether each name is one of these and stands once, and the flag has no value.
pub fn are_sound(names: &[&str], settings: &[Given<'_>]) -> bool
    ensures { result ≡ sound (texts names.now) (all_seen settings.now) }
{
    are_named(names, settings) && are_distinct(settings) && is_flag_bare(settings)
}

/// The value of an option, where it is given.
pub fn value_of<'a>(settings: &[Given<'a>], name: &str) -> Option<&'a str>
    ensures { option_map (λ v. v.now) result ≡ value_in (all_seen settings.now) name.now }
{
    for given in settings {
        if given.name == name {
            return given.value;
        }
    }
    None
}

/// Whether the flag is given.
pub fn has_flag(settings: &[Given<'_>]) -> bool
    ensures { result ≡ is_summary (all_seen settings.now) }
{
    settings.iter().any(|given| is_flag(given.name))
}
