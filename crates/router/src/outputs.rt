//! The outputs of a router: their numbers, and the way onward of a packet that came by an input.

ghost use Rattle.std.specs.Prelude.{◌≡◌, ◌<◌, ◌≤◌, length, slice_index_or};
ghost use Rattle.dateline_route.specs.declared.channel.Output.TheVariants.{Eject};
ghost use Rattle.channel_number.specs.Ports.{port_count, output_number};
ghost use Rattle.router.specs.Ways.{onward, output_numbered, HasDimension};

use crate::ports::ByPort;
use dateline_route::Output;
use torus::{Class, Dir};

/// The number of an output for packets of a class, in so many dimensions.
pub(crate) fn output_number(dims: u32, class: Class, output: Output) -> u32
    requires dims { dims ≤ 3 }
    requires output { HasDimension dims output }
    ensures value { result ≡ output_number dims class output }
    ensures within { result < port_count dims }
{
    match output {
        Output::Eject => {
            let place = match class {
                Class::Request => 0,
                Class::Reply => 1,
            };
            8 * dims + place
        }
        Output::Hop { dim, dir, bit } => {
            let dir = match dir {
                Dir::Plus => 0,
                Dir::Minus => 4,
            };
            let class = match class {
                Class::Request => 0,
                Class::Reply => 2,
            };
            8 * dim + dir + class + u32::from(bit)
        }
    }
}

/// The output that a list has at a port.
#[inline(always)]
pub(crate) fn output_at(outputs: &ByPort<u8>, port: u32) -> u32
    requires { port < length outputs.now.items }
    ensures { result ≡ slice_index_or outputs.now.items port 0 }
{
    u32::from(outputs[port as usize])
}

/// The output of a number for requests, in so many dimensions.
#[inline(always)]
pub(crate) fn output_numbered(dims: u32, number: u32) -> Output
    requires { dims ≤ 3 }
    ensures { result ≡ output_numbered dims number }
{
    if number < 8 * dims {
        Output::Hop {
            dim: number / 8,
            dir: if number / 4 % 2 == 0 {
                Dir::Plus
            } else {
                Dir::Minus
            },
            bit: number % 2 == 1,
        }
    } else {
        Output::Eject
    }
}

/// The way of a packet that came by an input, by that of one that was injected here.
pub(crate) fn onward(input: u32, output: Output) -> Output
    ensures { result ≡ onward input output }
{
    match output {
        Output::Eject => Output::Eject,
        Output::Hop { dim, dir, bit } => Output::Hop {
            dim,
            dir,
            bit: bit || (input / 8 == dim && input % 2 == 1),
        },
    }
}
