//! The children of a configuration as one list.
ghost use Rattle.std.specs.Prelude.{◌≡◌, ◌++◌, ◌∷◌, IfOk, OnOk};
ghost use Rattle.words.specs.Words.{AreWords};
ghost use Rattle.vdev_label.specs.Config.{guids};
ghost use Rattle.vdev_label.specs.Plain.{config_view};
ghost use Rattle.pool_format.specs.Labels.{children_of, children_with};

use std::alloc::{AllocError, Global};
use vdev_label::Config;

/// A disk by its guid and its vdev's.
#[derive(Clone, Copy)]
pub(crate) struct Child {
    pub(crate) top_guid: u64,
    pub(crate) guid: u64,
}

/// Adds the children of a vdev at the end.
fn add_children(children: &mut Vec<Child>, top_guid: u64, guids: &[u64]) -> Result<(), AllocError>
    ensures items { OnOk result (children.new.items
        ≡ children.old.items ++ children_with top_guid guids.now) }
    ensures words { AreWords (top_guid ∷ guids.now) }
{
    for i in 0..guids.len() {
        children.push(Child {
            top_guid,
            guid: guids[i],
        })?;
    }
    Ok(())
}

/// The children of all vdevs, in order.
pub(crate) fn children_of(alloc: Global, config: &Config) -> Result<Vec<Child>, AllocError>
    ensures items { IfOk result (λ children. children.items
        ≡ children_of (config_view config.now)) }
    ensures words { OnOk result (AreWords (guids (config_view config.now))) }
{
    let mut children = Vec::new(alloc);
    for i in 0..config.vdevs.len() {
        let vdev = &config.vdevs[i];
        add_children(&mut children, vdev.guid, &vdev.children)?;
    }
    Ok(children)
}
