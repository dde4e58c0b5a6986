//! Numbers of a configuration.
ghost use Rattle.std.specs.Prelude.{◌∷◌, ◌<◌, ◌^◌};
ghost use Rattle.words.specs.Words.{AreWords};
ghost use Rattle.vdev_label.specs.Config.{guids};
ghost use Rattle.vdev_label.specs.Plain.{config_view};

use vdev_label::Config;

/// A law: a `u64` is a word of 64 bits.
pub(crate) fn is_word(number: u64)
    ensures { number < 2 ^ 64 }
{
    let _ = number;
}

/// A law: the guid of a vdev and those of its children are words of 64 bits.
fn are_words(guid: u64, children: &[u64])
    ensures { AreWords (guid ∷ children.now) }
{
    let _ = guid;
    let _ = children;
}

/// A law: so are all guids of a configuration.
pub(crate) fn guids_are_words(config: &Config)
    ensures { AreWords (guids (config_view config.now)) }
{
    for i in 0..config.vdevs.len() {
        let vdev = &config.vdevs[i];
        are_words(vdev.guid, &vdev.children);
    }
}
