// The laws of printed tables. They take no memory and do nothing.

ghost use Rattle.rb_law_tables.specs.Printed.{PrintedTablesReadBack, ReadServicesHaveReadClasses};

/// What is printed of a service that was read, with a table that fits it, is read again: as the same service but for
/// positions, and with just that table, where its text isn't too long.
pub fn printed_tables_read_back()
    ensures { PrintedTablesReadBack }
{}

/// The classes of a service that a source is read as were read, so that it is read back with whatever table fits it.
pub fn read_services_have_read_classes()
    ensures { ReadServicesHaveReadClasses }
{}
