// Classes with an index of their members.

ghost use Rattle.std.specs.Prelude.{◌≡◌, map, IfOk};
ghost use Rattle.rb_trees.specs.mirror.Declarations.{mirror_param, mirror_method, mirror_class};
ghost use Rattle.rb_meaning_types.specs.Names.{class_named, field_named, method_named};
ghost use Rattle.rb_types.specs.Views.{found};

use rb_names::Names;
use rb_trees::{Class, Memory, Method, Param, Seq, Word, copy_word};
use std::alloc::Global;
use std::marker::Model;

/// A class whose fields and methods are found by name without walking their lists. Contracts see the
/// class.
#[derive(Drop)]
pub struct IndexedClass<'a> {
    class: &'a Class,
    // the names of its fields
    fields: Names,
    // the names of its methods
    methods: Names,
}

impl<'a> Model for IndexedClass<'a> {
    ghost use Rattle.std.specs.Prelude.{◌≡◌};
    ghost use Rattle.rb_trees.specs.declared.declarations.Class.{Class};
    ghost use Rattle.rb_trees.specs.contracts.declarations.Class as class_code;
    ghost use Rattle.rb_types.specs.Views.{names_of_fields, names_of_methods};

    ghost Value = { Class };

    ghost coded = { class_code.the_row.coded };

    ghost view = { λ c. c.class.now };

    ghost invariant = { λ c. (c.fields ≡ names_of_fields c.class.now) × (c.methods ≡ names_of_methods c.class.now) };
}

fn field_names(alloc: Global, fields: &[Param]) -> Result<Names, Memory>
    ensures { IfOk result (λ names. names ≡ map (λ f. f.name) fields.now) }
{
    let mut names = Names::new(alloc);
    for field in fields {
        let name = copy_word(alloc, &field.name)?;
        names.push(alloc, name)?;
    }
    Ok(names)
}

fn method_names(alloc: Global, methods: &[Method]) -> Result<Names, Memory>
    ensures { IfOk result (λ names. names ≡ map (λ m. m.signature.name) methods.now) }
{
    let mut names = Names::new(alloc);
    for method in methods {
        let name = copy_word(alloc, &method.signature.name)?;
        names.push(alloc, name)?;
    }
    Ok(names)
}

impl<'a> IndexedClass<'a> {
    /// The class, with its index.
    pub fn new(alloc: Global, class: &'a Class) -> Result<IndexedClass<'a>, Memory>
        ensures { IfOk result (λ c. c ≡ class.now) }
    {
        let fields = field_names(alloc, class.fields.as_slice())?;
        let methods = method_names(alloc, class.methods.as_slice())?;
        Ok(IndexedClass {
            class,
            fields,
            methods,
        })
    }

    /// The class.
    pub fn get(&self) -> &Class
        ensures { result.now ≡ self.now }
    {
        self.class
    }

    /// The first field of a name.
    #[tactic(auto, using(crate::proofs::Viewed::field_viewed))]
    pub fn find_field(&self, name: &Word) -> Option<&Param>
        ensures { found mirror_param result ≡ field_named (map mirror_param self.now.fields) name.now }
    {
        match self.fields.find(name) {
            Some(place) => self.class.fields.get(place),
            None => None,
        }
    }

    /// The first method of a name.
    #[tactic(auto, using(crate::proofs::Viewed::method_viewed))]
    pub fn find_method(&self, name: &Word) -> Option<&Method>
        ensures { found mirror_method result ≡ method_named (map mirror_method self.now.methods) name.now }
    {
        match self.methods.find(name) {
            Some(place) => self.class.methods.get(place),
            None => None,
        }
    }
}

/// The classes of a program or service, which are found by name without walking their list. Contracts
/// see the list.
#[derive(Drop)]
pub struct Classes<'a> {
    items: Seq<IndexedClass<'a>>,
    // their names
    names: Names,
}

impl<'a> Model for Classes<'a> {
    ghost use Rattle.std.specs.Prelude.{◌≡◌, List, map};
    ghost use Rattle.std.specs.Coded.{coded_list};
    ghost use Rattle.rb_trees.specs.declared.declarations.Class.{Class};
    ghost use Rattle.rb_trees.specs.contracts.declarations.Class as class_code;

    ghost Value = { List Class };

    ghost coded = { coded_list class_code.the_row.coded };

    ghost view = { λ all. all.items };

    ghost invariant = { λ all. all.names ≡ map (λ c. c.name) all.items };
}

impl<'a> Classes<'a> {
    /// The classes, with their index.
    pub fn new(alloc: Global, classes: &'a [Class]) -> Result<Classes<'a>, Memory>
        ensures { IfOk result (λ all. all ≡ classes.now) }
    {
        let mut items = Seq::new(alloc);
        let mut names = Names::new(alloc);
        for class in classes {
            let name = copy_word(alloc, &class.name)?;
            names.push(alloc, name)?;
            let item = IndexedClass::new(alloc, class)?;
            items.push(item)?;
        }
        Ok(Classes { items, names })
    }

    /// The classes in source order.
    pub fn as_slice(&self) -> &[IndexedClass<'a>]
        ensures { result.now ≡ self.now }
    {
        self.items.as_slice()
    }

    /// The first class of a name.
    #[tactic(auto, using(crate::proofs::Viewed::class_viewed))]
    pub fn find(&self, name: &Word) -> Option<&IndexedClass<'a>>
        ensures { found mirror_class result ≡ class_named (map mirror_class self.now) name.now }
    {
        match self.names.find(name) {
            Some(place) => self.items.get(place),
            None => None,
        }
    }
}
