ghost use Rattle.std.specs.Prelude.{◌≡◌, ◌<◌, ◌^◌};
ghost use Rattle.dnode.specs.Levels.{IsLeast, levels_of as the_levels_of};

/// How many levels a tree has whose highest block has this id, below 128^5.
pub fn levels_of(highest: u64) -> u8
    requires { highest < 128 ^ 5 }
    ensures value { result ≡ the_levels_of highest }
    ensures least { IsLeast highest result }
{
    match highest {
        0 => 1,
        1..=0x7f => 2,
        0x80..=0x3fff => 3,
        0x4000..=0x1f_ffff => 4,
        0x20_0000..=0x0fff_ffff => 5,
        _ => 6,
    }
}
