ghost use Rattle.std.specs.Prelude.{◌≡◌, IfOk, IfErr};
ghost use Rattle.dnode.specs.Dnode.{FitsDnode, SpellsDnode, dnode_bytes};

use crate::node::ObjectNode;
use crate::refusal::Refusal;
use words::is_zero;

/// A slot among an object set's dnodes.
#[derive(Clone, Copy, PartialEq, Eq)]
pub enum Dnode {
    /// No object.
    Free,
    Object(ObjectNode),
}

impl Dnode {
    /// The one spelling of a dnode. A free one is 512 zeros.
    pub fn encode(&self) -> [u8; 512]
        requires { FitsDnode self.now }
        ensures { result ≡ dnode_bytes self.now }
    {
        match self {
            Dnode::Free => [0; 512],
            Dnode::Object(node) => node.to_bytes(),
        }
    }

    /// The dnode that the bytes spell. `BadPointer` where they spell none.
    pub fn decode(bytes: &[u8; 512]) -> Result<Dnode, Refusal>
        // What is found is spelled so, each byte of it.
        ensures found { IfOk result (SpellsDnode bytes.now) }
        // What is spelled so is found.
        ensures only { (d : Dnode) → SpellsDnode bytes.now d → result ≡ Ok d }
        ensures refused { IfErr result (λ refusal. refusal ≡ Refusal.BadPointer) }
    {
        if is_zero(bytes) {
            return Ok(Dnode::Free);
        }
        let node = ObjectNode::from_bytes(bytes)?;
        Ok(Dnode::Object(node))
    }
}
