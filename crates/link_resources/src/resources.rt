//! The resources of a link.

ghost use Rattle.std.specs.Prelude.{◌≡◌, ◌<◌, ◌+◌, ◌^◌, map, IfOk};
ghost use Rattle.link_words.specs.Outcome.{options_said};
ghost use Rattle.res_merge.specs.Entries.{entry_of};
ghost use Rattle.res_merge.specs.Order.{AreMergeable};
ghost use Rattle.link_resources.specs.LinkResources.{size_of, resources_with, IsSized, tree_bytes};

use link_base::Memory;
use link_words::Options;
use res_merge::{Resource, tree, tree_length};
use std::alloc::Global;
use std::marker::Model;

/// The resources of an image: its time, the resources in the order of their files, and the size of their tree, which is 0
/// without any.
#[derive(Drop)]
pub struct LinkResources<'a> {
    time: u32,
    list: Vec<Resource<'a>>,
    size: u32,
}

impl<'a> Model for LinkResources<'a> {
    ghost use Rattle.std.specs.Prelude.{map};
    ghost use Rattle.res_merge.specs.Entries.{entry_of};
    ghost use Rattle.link_resources.specs.LinkResources.{ResourcesView};

    ghost Value = { ResourcesView };

    ghost view = { λ resources. record { time = resources.time; entries = map entry_of resources.list.items; size = resources.size } };
}

impl<'a> LinkResources<'a> {
    /// The resources of an image with these options.
    pub fn of(
        alloc: Global,
        options: &Options<'_>,
        list: Vec<Resource<'a>>,
    ) -> Result<LinkResources<'a>, Memory>
        requires { AreMergeable (map entry_of list.items) }
        ensures { IfOk result (λ resources. resources ≡ resources_with (options_said options.now) (map entry_of list.entry.items)) }
    {
        let size = size_of(alloc, &list)?;
        Ok(LinkResources {
            time: options.time,
            list,
            size,
        })
    }

    /// The size of the tree in bytes; 0 without a resource.
    pub fn size(&self) -> u32
        ensures { result ≡ self.now.size }
    {
        self.size
    }

    /// The bytes of the tree, for a place at an RVA (PE Format, "The .rsrc Section"). It has none without a resource.
    #[tactic(auto, unfolding(crate::specs::LinkResources::tree_bytes))]
    pub fn tree(&self, alloc: Global, rva: u32) -> Result<Vec<u8>, Memory>
        requires mergeable { AreMergeable self.now.entries }
        requires sized { IsSized self.now }
        requires fits { rva + self.now.size < 2 ^ 32 }
        ensures { IfOk result (λ bytes. bytes.items ≡ tree_bytes self.now rva) }
    {
        if self.size == 0 {
            return Ok(Vec::new(alloc));
        }
        tree(alloc, &self.list, self.time, rva)
    }
}

/// The size of the tree of some resources.
fn size_of(alloc: Global, list: &[Resource<'_>]) -> Result<u32, Memory>
    requires { AreMergeable (map entry_of list.now) }
    ensures { IfOk result (λ size. size ≡ size_of (map entry_of list.now)) }
{
    if list.is_empty() {
        return Ok(0);
    }
    tree_length(alloc, list)
}
