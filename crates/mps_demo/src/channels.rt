// The channels of the image.
ghost use Rattle.std.specs.Prelude.{◌≡◌, ◌+◌, ◌*◌, ◌<◌, ◌≤◌, ◌^◌, length};
ghost use Rattle.mps_demo.specs.Drawn.{place_in};
ghost use Rattle.mps_demo.specs.Image.{category_in, centre_at, centres_at, channel_of, channels_of, is_in as is_in_channel};

use crate::drawing::draw;
use arrayvec::ArrayVec;
use mp_base::Cat;
use path_stream::WordCursor;
use std::marker::Model;

/// How many channels the image has.
pub const CHANNELS: usize = 5;

// The middle of the first channel, and how far apart the middles are.
const FIRST_MIDDLE: u32 = 25;

const SPACING: u32 = 50;

// A middle is moved by -5 to 5 cells.
const SHIFTS: u32 = 11;

const GREATEST_SHIFT: u32 = 5;

// The length of a channel's wave, and how far its centre goes below its middle.
const WAVELENGTH: u32 = 100;

const DIP: u32 = 12;

// How far the sides of a channel are from its centre.
const HALF_WIDTH: u32 = 3;

// The categories of the image.
const CHANNEL: Cat = Cat(1);

const BACKGROUND: Cat = Cat(0);

/// A channel: a band that swings up and down along x, straight between its turns.
#[derive(Clone, Copy, Default)]
pub struct Channel {
    /// How far along its wave it is in the first column.
    pub phase: u8,
    /// The least y of its centre.
    pub lowest: u8,
}

impl Channel {
    // The y of its centre in a column.
    fn centre(self, x: u32) -> u32
        requires { x < 2 ^ 31 }
        ensures { result ≡ centre_at x self }
    {
        let along = (x + u32::from(self.phase)) % WAVELENGTH;
        let height = if along < WAVELENGTH / 2 {
            along
        } else {
            WAVELENGTH - along
        };
        u32::from(self.lowest) + height / 2
    }
}

/// The channels, by the first words.
pub fn draw_channels(words: &mut WordCursor) -> ArrayVec<Channel, CHANNELS>
    requires { words.old ≡ place_in words.old.seed 0 }
    ensures channels { result.items ≡ channels_of words.old.seed }
    ensures words { words.new ≡ place_in words.old.seed 10 }
{
    let mut channels = ArrayVec::new();
    for number in 0..CHANNELS as u32 {
        channels.push(draw_channel(number, words));
    }
    channels
}

// The channel of this number, by the next two words.
fn draw_channel(number: u32, words: &mut WordCursor) -> Channel
    requires number { number < CHANNELS }
    requires words { words.old ≡ place_in words.old.seed (2 * number) }
    ensures channel { result ≡ channel_of words.old.seed number }
    ensures words { words.new ≡ place_in words.old.seed (2 * (number + 1)) }
{
    let phase = draw(words, WAVELENGTH);
    let middle = FIRST_MIDDLE + SPACING * number + draw(words, SHIFTS) - GREATEST_SHIFT;
    Channel {
        phase: phase as u8,
        lowest: (middle - DIP) as u8,
    }
}

/// The centres of the channels in one column.
#[derive(Drop)]
pub struct Centres {
    list: ArrayVec<u32, CHANNELS>,
}

impl Model for Centres {
    ghost use Rattle.std.specs.Prelude.{ℕ, List};

    ghost Value = { List ℕ };

    ghost view = { λ c. c.list.items };
}

impl Centres {
    ghost use Rattle.mps_demo.specs.Image.{category_in, centres_at};

    /// The centres in a column.
    pub fn of(channels: &[Channel], x: u32) -> Centres
        requires few { length channels.now ≤ CHANNELS }
        requires column { x < 2 ^ 31 }
        ensures { result ≡ centres_at channels.now x }
    {
        let mut list = ArrayVec::new();
        for channel in channels {
            list.push(channel.centre(x));
        }
        Centres { list }
    }

    /// The category of the column's cell at this y.
    pub fn category(&self, y: u32) -> Cat
        ensures { result ≡ category_in self.now y }
    {
        if is_in(self.list.as_slice(), y) {
            CHANNEL
        } else {
            BACKGROUND
        }
    }
}

// Whether a cell at this y is in a channel with one of these centres.
fn is_in(centres: &[u32], y: u32) -> bool
    ensures { result ≡ is_in_channel centres.now y }
{
    centres
        .iter()
        .any(|centre| y.abs_diff(*centre) <= HALF_WIDTH)
}
