//! How many items of each kind there are.
use ir_phrases::instructions::WrittenBlock;
use ir_syntax::Item;
use std::alloc::AllocError;

/// How many items of each kind, and how many blocks and instructions, ends among them.
#[derive(Clone, Copy)]
struct Counts {
    structs: u64,
    variables: u64,
    aliases: u64,
    declarations: u64,
    definitions: u64,
    blocks: u64,
    instructions: u64,
    others: u64,
}

impl Counts {
    // Counts a definition with these blocks.
    fn add_blocks(&mut self, blocks: &[WrittenBlock]) {
        self.definitions = self.definitions.saturating_add(1);
        for block in blocks {
            self.blocks = self.blocks.saturating_add(1);
            let instructions = (block.instructions.len() as u64).saturating_add(1);
            self.instructions = self.instructions.saturating_add(instructions);
        }
    }

    // Counts an item.
    fn add(&mut self, item: &Item) {
        match item {
            Item::Struct { .. } => self.structs = self.structs.saturating_add(1),
            Item::Variable(_) => self.variables = self.variables.saturating_add(1),
            Item::Alias(_) => self.aliases = self.aliases.saturating_add(1),
            Item::Declaration { .. } => self.declarations = self.declarations.saturating_add(1),
            Item::Definition { definition, .. } => self.add_blocks(definition.blocks.as_slice()),
            _ => self.others = self.others.saturating_add(1),
        }
    }
}

fn counts_of(items: &[Item]) -> Counts {
    let mut counts = Counts {
        structs: 0,
        variables: 0,
        aliases: 0,
        declarations: 0,
        definitions: 0,
        blocks: 0,
        instructions: 0,
        others: 0,
    };
    for item in items {
        counts.add(item);
    }
    counts
}

/// Adds the counts of these items, that of aliases where there is one.
pub fn push_counts(text: &mut String, items: &[Item]) -> Result<(), AllocError> {
    let counts = counts_of(items);
    let (structs, variables, aliases) = (counts.structs, counts.variables, counts.aliases);
    let (declared, defined) = (counts.declarations, counts.definitions);
    let (blocks, instructions, others) = (counts.blocks, counts.instructions, counts.others);
    write!(
        text,
        "{structs} structs, {variables} variables, {declared} declared, "
    )?;
    write!(
        text,
        "{defined} defined, {blocks} blocks, {instructions} instructions, "
    )?;
    if aliases > 0 {
        write!(text, "{others} others, {aliases} aliases")
    } else {
        write!(text, "{others} others")
    }
}
