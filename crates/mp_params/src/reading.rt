// Parameters read from a file.
ghost use Rattle.std.specs.Prelude.{◌≡◌, ◌≤◌, IfOk, All, length, false, true};
ghost use Rattle.std.specs.List.{sum};
ghost use Rattle.mp_params.specs.Lines.{Gives};
ghost use Rattle.mp_params.specs.Params.{targets_fit as targets_fit_codes};
ghost use Rattle.mp_params.specs.Reading.{judged as judged_values, params_of, values_in, values_of};
ghost use Rattle.mp_params.specs.Whole.{IsRead, IsWhole};
ghost use Rattle.mp_values.specs.Values.{is_code};

use crate::fault::{ParamsError, ParamsFault};
use crate::found;
use crate::params::Params;
use crate::settings::{Setting, settings};
use crate::table::Key;
use mp_base::NoMemory;
use mp_values::Targets;
use std::alloc::Global;

// The greatest length of a parameter file.
const MAX_BYTES: usize = 65_536;

// The sum of targets.
const MILLION: u64 = 1_000_000;

/// The parameters that a file names, or the fault for which it is refused: too many bytes, then
/// the fault of the first line that has one, then the first required key that no line has, then a
/// missing code that is a category, then targets that don't fit.
#[tactic(auto, unfolding(crate::specs::Reading::params_of))]
pub fn read_params(alloc: Global, bytes: &[u8]) -> Result<Params, ParamsError>
    ensures { Gives (λ p. p) result (params_of bytes.now) }
{
    if bytes.len() > MAX_BYTES {
        return Err(ParamsError::Fault(ParamsFault::TooLong));
    }
    let settings = settings(alloc, bytes)?;
    params(alloc, &settings)
}

// The parameters that settings give.
#[tactic(auto, unfolding(crate::specs::Reading::values_of))]
fn params(alloc: Global, settings: &[Setting<'_>]) -> Result<Params, ParamsError>
    requires { All IsRead settings.now }
    ensures { Gives (λ p. p) result (values_of settings.now) }
{
    match found::first_absent(settings) {
        Some(key) => Err(ParamsError::Fault(ParamsFault::Absent { key })),
        None => judged(alloc, settings),
    }
}

// The same where no required key is absent: the missing code may be a category, and targets may not fit.
fn judged(alloc: Global, settings: &[Setting<'_>]) -> Result<Params, ParamsError>
    requires { IsWhole settings.now }
    ensures { Gives (λ p. p) result (judged_values (values_in settings.now)) }
{
    let categories = found::categories(settings, Key::Categories);
    let missing = found::code(settings, Key::Missing);
    if is_category(missing, categories.as_slice()) {
        return Err(ParamsError::Fault(ParamsFault::BadMissing));
    }
    let targets = found::targets_if_any(settings, Key::Targets);
    if !targets_fit(&targets, categories.as_slice()) {
        return Err(ParamsError::Fault(ParamsFault::BadTargets));
    }
    match whole(alloc, settings) {
        Ok(params) => Ok(params),
        Err(error) => Err(ParamsError::from(error)),
    }
}

// The values of all keys.
#[tactic(auto, unfolding(crate::specs::Reading::values_in))]
fn whole(alloc: Global, settings: &[Setting<'_>]) -> Result<Params, NoMemory>
    requires whole { IsWhole settings.now }
    requires apart { is_code (values_in settings.now).missing (values_in settings.now).categories ≡ false }
    requires fit { targets_fit_codes (values_in settings.now).targets (values_in settings.now).categories ≡ true }
    ensures { IfOk result (λ p. p ≡ values_in settings.now) }
{
    let image = found::name(alloc, settings, Key::Image)?;
    let points = found::name_if_any(alloc, settings, Key::Points)?;
    let output = found::name(alloc, settings, Key::Output)?;
    Ok(Params {
        version: found::version(settings, Key::Version),
        image,
        image_shape: found::shape(settings, Key::ImageShape),
        image_column: found::number(settings, Key::ImageColumn) as u16,
        categories: found::categories(settings, Key::Categories),
        missing: found::code(settings, Key::Missing),
        grid: found::shape(settings, Key::Grid),
        origin: found::origin(settings, Key::Origin),
        size: found::sizes(settings, Key::Size),
        points,
        point_columns: found::columns(settings, Key::PointColumns),
        radii: found::radii(settings, Key::Radii),
        template: found::number(settings, Key::Template) as u8,
        max_data: found::number(settings, Key::MaxData) as u8,
        min_replicates: found::number(settings, Key::MinReplicates),
        levels: found::number(settings, Key::Levels) as u8,
        servo: found::number(settings, Key::Servo) as u16,
        targets: found::targets_if_any(settings, Key::Targets),
        seed: found::seed(settings, Key::Seed),
        realisations: found::number(settings, Key::Realisations),
        store: found::store(settings, Key::Store),
        window: found::number(settings, Key::Window) as u16,
        output,
    })
}

// Whether a code is the code of a category.
fn is_category(code: i32, categories: &[i32]) -> bool
    ensures { result ≡ is_code code categories.now }
{
    categories.contains(&code)
}

// Whether targets, if there are any, are as many as the categories and a million in all.
fn targets_fit(targets: &Option<Targets>, categories: &[i32]) -> bool
    ensures { result ≡ targets_fit_codes targets.now categories.now }
{
    match targets {
        Some(targets) => {
            targets.as_slice().len() == categories.len() && total(targets.as_slice()) == MILLION
        }
        None => true,
    }
}

// The sum of at most eight parts.
fn total(parts: &[u32]) -> u64
    requires { length parts.now ≤ 8 }
    ensures { result ≡ sum parts.now }
{
    parts.iter().map(|part| u64::from(*part)).sum()
}
