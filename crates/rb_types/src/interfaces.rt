// Interfaces with an index of their members.

ghost use Rattle.std.specs.Prelude.{◌≡◌, [], map, IfOk};
ghost use Rattle.rb_trees.specs.mirror.Declarations.{mirror_signature, mirror_interface};
ghost use Rattle.rb_meaning_types.specs.Names.{interface_named, signature_named};
ghost use Rattle.rb_types.specs.Views.{found};

use rb_names::Names;
use rb_trees::{Interface, Memory, Seq, Signature, Word, copy_word};
use std::alloc::Global;
use std::marker::Model;

/// An interface whose methods are found by name without walking their list. Contracts see the
/// interface.
#[derive(Drop)]
pub struct IndexedInterface<'a> {
    interface: &'a Interface,
    // the names of its methods
    methods: Names,
}

impl<'a> Model for IndexedInterface<'a> {
    ghost use Rattle.std.specs.Prelude.{◌≡◌, map};
    ghost use Rattle.rb_trees.specs.declared.declarations.Interface.{Interface};
    ghost use Rattle.rb_trees.specs.contracts.declarations.Interface as interface_code;

    ghost Value = { Interface };

    ghost coded = { interface_code.the_row.coded };

    ghost view = { λ i. i.interface.now };

    ghost invariant = { λ i. i.methods ≡ map (λ s. s.name) i.interface.now.methods };
}

fn signature_names(alloc: Global, signatures: &[Signature]) -> Result<Names, Memory>
    ensures { IfOk result (λ names. names ≡ map (λ s. s.name) signatures.now) }
{
    let mut names = Names::new(alloc);
    for signature in signatures {
        let name = copy_word(alloc, &signature.name)?;
        names.push(alloc, name)?;
    }
    Ok(names)
}

impl<'a> IndexedInterface<'a> {
    /// The interface, with its index.
    pub fn new(alloc: Global, interface: &'a Interface) -> Result<IndexedInterface<'a>, Memory>
        ensures { IfOk result (λ i. i ≡ interface.now) }
    {
        let methods = signature_names(alloc, interface.methods.as_slice())?;
        Ok(IndexedInterface { interface, methods })
    }

    /// The interface.
    pub fn get(&self) -> &Interface
        ensures { result.now ≡ self.now }
    {
        self.interface
    }

    /// The method of a name.
    #[tactic(auto, using(crate::proofs::Viewed::signature_viewed))]
    pub fn find_method(&self, name: &Word) -> Option<&Signature>
        ensures { found mirror_signature result ≡ signature_named (map mirror_signature self.now.methods) name.now }
    {
        match self.methods.find(name) {
            Some(place) => self.interface.methods.get(place),
            None => None,
        }
    }
}

/// The interfaces of a program, which are found by name without walking their list. Contracts see the
/// list.
#[derive(Drop)]
pub struct Interfaces<'a> {
    items: Seq<IndexedInterface<'a>>,
    // their names
    names: Names,
}

impl<'a> Model for Interfaces<'a> {
    ghost use Rattle.std.specs.Prelude.{◌≡◌, List, map};
    ghost use Rattle.std.specs.Coded.{coded_list};
    ghost use Rattle.rb_trees.specs.declared.declarations.Interface.{Interface};
    ghost use Rattle.rb_trees.specs.contracts.declarations.Interface as interface_code;

    ghost Value = { List Interface };

    ghost coded = { coded_list interface_code.the_row.coded };

    ghost view = { λ all. all.items };

    ghost invariant = { λ all. all.names ≡ map (λ i. i.name) all.items };
}

impl<'a> Interfaces<'a> {
    /// No interfaces.
    pub fn none(alloc: Global) -> Interfaces<'a>
        ensures { result ≡ [] }
    {
        Interfaces {
            items: Seq::new(alloc),
            names: Names::new(alloc),
        }
    }

    /// The interfaces, with their index.
    pub fn new(alloc: Global, interfaces: &'a [Interface]) -> Result<Interfaces<'a>, Memory>
        ensures { IfOk result (λ all. all ≡ interfaces.now) }
    {
        let mut items = Seq::new(alloc);
        let mut names = Names::new(alloc);
        for interface in interfaces {
            let name = copy_word(alloc, &interface.name)?;
            names.push(alloc, name)?;
            let item = IndexedInterface::new(alloc, interface)?;
            items.push(item)?;
        }
        Ok(Interfaces { items, names })
    }

    /// The interfaces in source order.
    pub fn as_slice(&self) -> &[IndexedInterface<'a>]
        ensures { result.now ≡ self.now }
    {
        self.items.as_slice()
    }

    /// The first interface of a name.
    #[tactic(auto, using(crate::proofs::Viewed::interface_viewed))]
    pub fn find(&self, name: &Word) -> Option<&IndexedInterface<'a>>
        ensures { found mirror_interface result ≡ interface_named (map mirror_interface self.now) name.now }
    {
        match self.names.find(name) {
            Some(place) => self.items.get(place),
            None => None,
        }
    }
}
