//! Laws of channels and their numbers, each the contract of a function that does nothing.

ghost use Rattle.std.specs.Prelude.{◌≡◌, ◌<◌, ◌≤◌, ℕ, map, false};
ghost use Rattle.std.specs.List.Sorted.{IsStrictlyIncreasing};
ghost use Rattle.torus.specs.Shape.{Shape, IsAccepted, tiles_of, dims_of};
ghost use Rattle.torus.specs.declared.shape.Class.{Class};
ghost use Rattle.torus.specs.declared.shape.Class.TheVariants.{Reply};
ghost use Rattle.dateline_route.specs.declared.channel.Channel.{Channel};
ghost use Rattle.dateline_route.specs.Route.{route_of};
ghost use Rattle.dateline_route.specs.declared.channel.Kind.TheVariants.{Ejection};
ghost use Rattle.dateline_route.specs.declared.channel.Output.{Output};
ghost use Rattle.dateline_route.specs.Walk.{IsChannel, IsInside, LeadsTo, input_of, kind_of};
ghost use Rattle.channel_number.specs.Order.{place_in_tile, channel_index, channel_count, channel_at};
ghost use Rattle.channel_number.specs.Ports.{port_count, input_channel, output_channel, input_numbered};
ghost use Rattle.channel_number.specs.Ports.{output_number, is_injection, is_ejection, IsInput, HasInput, IsOutput};
ghost use Rattle.channel_number.specs.Ports.{HasOutput};
ghost use Rattle.channel_number.specs.Number.{number_of};

/// Channel order: each channel has a place below the number of channels, no two have the same, and
/// each place is that of a channel.
pub fn places_name_channels()
    ensures below { (s : Shape) (x : Channel) → IsChannel s x
        → channel_index s x < channel_count s }
    ensures unique { (s : Shape) (x y : Channel) → IsChannel s x → IsChannel s y
        → channel_index s x ≡ channel_index s y → x ≡ y }
    ensures every { (s : Shape) (i : ℕ) → i < channel_count s
        → (x : Channel) × IsChannel s x × (channel_index s x ≡ i) }
{}

/// The channel that has a place, as a function of the place.
pub fn places_tell_channels()
    ensures place { (s : Shape) (i : ℕ) → i < channel_count s
        → IsChannel s (channel_at s i) × (channel_index s (channel_at s i) ≡ i) }
    ensures channel { (s : Shape) (x : Channel) → IsChannel s x
        → channel_at s (channel_index s x) ≡ x }
{}

/// Each input of a router is at one channel, which leads there, and each channel that leads to a
/// router is at one input; and so for the outputs.
pub fn routers_have_all_channels()
    ensures inputs { (s : Shape) → IsAccepted s → (t i : ℕ) → t < tiles_of s
        → i < port_count (dims_of s) → IsInput s t i }
    ensures each_input { (s : Shape) → IsAccepted s → (x : ℕ) → x < channel_count s
        → is_ejection (channel_at s x).kind ≡ false → HasInput s x }
    ensures outputs { (s : Shape) → IsAccepted s → (t o : ℕ) → t < tiles_of s
        → o < port_count (dims_of s) → IsOutput s t o }
    ensures each_output { (s : Shape) → IsAccepted s → (x : ℕ) → x < channel_count s
        → is_injection (channel_at s x).kind ≡ false → HasOutput s x }
{}

/// Of the channels that lead to a tile's router each input has exactly one: `input_channel`, by which
/// packets come as from the input of that number.
pub fn inputs_have_one_channel()
    ensures leads { (s : Shape) → IsAccepted s → (t i : ℕ) → t < tiles_of s
        → i < port_count (dims_of s)
        → LeadsTo s (channel_at s (input_channel s t i)).tile
        (channel_at s (input_channel s t i)).kind t
        × (input_of (channel_at s (input_channel s t i)).kind ≡ input_numbered (dims_of s) i) }
    ensures only { (s : Shape) → IsAccepted s → (x : Channel) (t : ℕ) → IsChannel s x
        → LeadsTo s x.tile x.kind t
        → (place_in_tile (dims_of s) x.class x.kind < port_count (dims_of s))
        × (input_channel s t (place_in_tile (dims_of s) x.class x.kind) ≡ channel_index s x) }
    ensures apart { (s : Shape) → IsAccepted s → (t i u j : ℕ) → t < tiles_of s
        → i < port_count (dims_of s) → u < tiles_of s → j < port_count (dims_of s)
        → input_channel s t i ≡ input_channel s u j → (t ≡ u) × (i ≡ j) }
{}

/// The channel at the output of a number is the hop or ejection out of the tile that a router means
/// by it, and no two outputs have the same.
pub fn outputs_have_one_channel()
    ensures within { (s : Shape) (class : Class) (out : Output) → IsInside s (kind_of out)
        → output_number (dims_of s) class out < port_count (dims_of s) }
    ensures channel { (s : Shape) (t : ℕ) (class : Class) (out : Output) → IsInside s (kind_of out)
        → output_channel s t (output_number (dims_of s) class out)
        ≡ channel_index s (record { tile = t; class = class; kind = kind_of out }) }
    ensures apart { (s : Shape) (t o u p : ℕ) → t < tiles_of s → o < port_count (dims_of s)
        → u < tiles_of s → p < port_count (dims_of s)
        → output_channel s t o ≡ output_channel s u p → (t ≡ u) × (o ≡ p) }
{}

/// Along every route, on every torus with every choice of datelines, each next channel has a greater
/// number.
pub fn numbers_rise_along_routes()
    ensures { (s : Shape) → IsAccepted s → (src dst : ℕ) → src < tiles_of s → dst < tiles_of s
        → (class : Class)
        → IsStrictlyIncreasing (map (number_of s) (route_of s src dst class)) }
{}

/// The greatest number is that of the ejections of replies, and at most 67.
pub fn numbers_have_a_greatest()
    ensures greatest { (s : Shape) → IsAccepted s → (x : Channel) → IsChannel s x → (t : ℕ)
        → number_of s x ≤ number_of s (record { tile = t; class = Reply; kind = Ejection }) }
    ensures small { (s : Shape) → IsAccepted s → (x : Channel) → IsChannel s x
        → number_of s x ≤ 67 }
{}
