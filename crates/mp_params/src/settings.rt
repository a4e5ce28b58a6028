// The settings of a file: its lines, judged one after another.
ghost use Rattle.std.specs.Prelude.{◌≡◌, ◌++◌, ◌≤◌, All, IfOk, IfSome, OnOk, Some, None, if◌then◌else◌, is_some, option_map, length};
ghost use Rattle.std.specs.List.{list_all};
ghost use Rattle.std.specs.Option.{option_to_list};
ghost use Rattle.mp_params.specs.Lines.{Gives, given, is_key_byte, is_key_text, is_setting, key_fault, line_fault, name_and_text, setting_of, settings_of, unless};
ghost use Rattle.mp_params.specs.Table.{key_of as key_named};
ghost use Rattle.mp_params.specs.Whole.{IsRead};
ghost use Rattle.mp_text.specs.Lines.{line_texts};

use crate::fault::{ParamsError, ParamsFault};
use crate::table::key_of;
use mp_base::NoMemory;
use mp_text::{cut, is_skipped, line_text, next_line, trimmed};
use mp_values::{are_line_bytes, fits};
use std::alloc::Global;
use std::marker::Model;

/// A line's setting: the name of a key, and the text of its value.
#[derive(Drop)]
pub struct Setting<'a> {
    name: &'a [u8],
    text: &'a [u8],
}

impl<'a> Model for Setting<'a> {
    ghost use Rattle.mp_params.specs.Lines.{SettingValue};

    ghost Value = { SettingValue };

    ghost view = { λ s. record { name = s.name.now; text = s.text.now } };
}

/// The settings of a file, or the fault of its first line that has one.
pub fn settings(alloc: Global, file: &[u8]) -> Result<Vec<Setting<'_>>, ParamsError>
    requires { length file.now ≤ 65536 }
    ensures value { Gives (λ v. v.items) result (settings_of (line_texts file.now)) }
    ensures read { IfOk result (λ v. All IsRead v.items) }
{
    let mut settings = Vec::new(alloc);
    let mut rest = file;
    let mut number = 0;
    while let Some((line, more)) = next_line(rest) {
        number += 1;
        match judged(number, &settings, line_text(line)) {
            Ok(setting) => add(&mut settings, setting)?,
            Err(fault) => return Err(ParamsError::Fault(fault)),
        }
        rest = more;
    }
    Ok(settings)
}

/// The text that the settings give a name.
pub fn given<'a>(settings: &[Setting<'a>], name: &[u8]) -> Option<&'a [u8]>
    ensures { option_map (λ t. t.now) result ≡ given settings.now name.now }
{
    for setting in settings {
        if setting.name == name {
            return Some(setting.text);
        }
    }
    None
}

// Adds a setting, if there is one.
fn add<'a>(settings: &mut Vec<Setting<'a>>, setting: Option<Setting<'a>>) -> Result<(), NoMemory>
    ensures { OnOk result (settings.new.items ≡ settings.old.items ++ option_to_list setting.entry) }
{
    if let Some(setting) = setting {
        settings.push(setting)?;
    }
    Ok(())
}

// The setting of a line behind others, if it isn't skipped, or the line's fault.
#[tactic(auto, unfolding(crate::specs::Lines::line_fault, crate::specs::Lines::setting_of))]
fn judged<'a>(
    number: u32,
    earlier: &[Setting<'_>],
    line: &'a [u8],
) -> Result<Option<Setting<'a>>, ParamsFault>
    ensures value { result ≡ unless (line_fault number earlier.now line.now) (setting_of line.now) }
    ensures read { IfOk result (λ setting. IfSome setting IsRead) }
{
    if is_skipped(line) {
        return Ok(None);
    }
    let Some(setting) = setting_in(line) else {
        return Err(ParamsFault::BadLine { line: number });
    };
    if let Some(fault) = key_fault(number, earlier, &setting) {
        return Err(fault);
    }
    Ok(Some(setting))
}

// The fault of a line's key or value, behind other settings.
fn key_fault(number: u32, earlier: &[Setting<'_>], setting: &Setting<'_>) -> Option<ParamsFault>
    ensures { result ≡ key_fault number earlier.now setting.now (key_named setting.now.name) }
{
    let Some(key) = key_of(setting.name) else {
        return Some(ParamsFault::UnknownKey { line: number });
    };
    if given(earlier, setting.name).is_some() {
        return Some(ParamsFault::Twice { line: number });
    }
    if !fits(key.form(), setting.text) {
        return Some(ParamsFault::BadValue { line: number });
    }
    None
}

// What stands before the first `=` and after it, where the line has the bytes of a setting and a
// key's name before the `=`.
fn setting_in(line: &[u8]) -> Option<Setting<'_>>
    ensures { result ≡ (if is_setting line.now then Some (name_and_text line.now) else None) }
{
    let Some((name, text)) = cut(line, b'=') else {
        return None;
    };
    let setting = Setting {
        name: trimmed(name),
        text: trimmed(text),
    };
    if are_line_bytes(line) && is_key_text(setting.name) {
        Some(setting)
    } else {
        None
    }
}

// Whether a text looks like the name of a key.
fn is_key_text(text: &[u8]) -> bool
    ensures { result ≡ is_key_text text.now }
{
    1 <= text.len() && are_key_bytes(text)
}

// Whether a key's name may have these bytes.
fn are_key_bytes(text: &[u8]) -> bool
    ensures { result ≡ list_all is_key_byte text.now }
{
    text.iter().all(|byte| is_key_byte(*byte))
}

// Whether a key's name may have this byte.
fn is_key_byte(byte: u8) -> bool
    ensures { result ≡ is_key_byte byte }
{
    byte.is_ascii_lowercase() || byte == b'_'
}
