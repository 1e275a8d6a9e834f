ghost use Rattle.std.specs.Prelude.{◌≡◌, ◌∷◌, ◌++◌, map, string_bytes, IfOk, OnOk};
ghost use Rattle.std.specs.List.{list_all, join_with_byte};
ghost use Rattle.std.specs.Option.{option_copied};
ghost use Rattle.cd_text.specs.Gives.{Gives};
ghost use Rattle.cd_module.specs.Ids.{is_label_byte, is_label, id_of, dotted, name_in, namespace_in};

use cd_text::{List, NoMemory, Text, parts_of};
use std::alloc::Global;
use thiserror::Error;

/// Names a module: labels joined by dots, as `http.handlers.static_response`.
#[derive(Debug, Drop)]
pub struct ModuleId {
    /// In an id that was read: one or more, each of `a` to `z`, `0` to `9` and `_`.
    pub labels: List<Text>,
}

/// Why a text names no module.
#[derive(Clone, Copy, Debug, PartialEq, Eq, Error)]
pub enum IdFormFault {
    /// It is not made of labels of `a` to `z`, `0` to `9` and `_`, which single dots join.
    #[error("the text does not have the form of a module id")]
    BadForm,
    /// Memory ran out.
    #[error("out of memory")]
    NoMemory,
}

impl From<NoMemory> for IdFormFault {
    ghost use Rattle.std.specs.Prelude.{◌≡◌};
    ghost use Rattle.cd_module.specs.declared.id.IdFormFault.TheVariants.{NoMemory as out_of_memory};

    ghost from_gives = { λ _ fault. fault ≡ out_of_memory };

    fn from(_: NoMemory) -> IdFormFault {
        IdFormFault::NoMemory
    }
}

fn is_label_byte(byte: u8) -> bool
    ensures { result ≡ is_label_byte byte }
{
    (b'a' <= byte && byte <= b'z') || (b'0' <= byte && byte <= b'9') || byte == b'_'
}

fn are_label_bytes(bytes: &[u8]) -> bool
    ensures { result ≡ list_all is_label_byte bytes.now }
{
    bytes.iter().all(|byte| is_label_byte(*byte))
}

fn is_label(part: &str) -> bool
    ensures { result ≡ is_label part.now }
{
    !part.is_empty() && are_label_bytes(part.as_bytes())
}

fn are_labels(parts: &[&str]) -> bool
    ensures { result ≡ list_all is_label (map (λ part. part.now) parts.now) }
{
    for part in parts {
        if !is_label(part) {
            return false;
        }
    }
    true
}

fn labels_of(alloc: Global, parts: &[&str]) -> Result<List<Text>, NoMemory>
    ensures { IfOk result (λ labels. labels ≡ map (λ part. part.now) parts.now) }
{
    let mut labels = List::new(alloc);
    for part in parts {
        labels.push(Text::from_str(alloc, part)?)?;
    }
    Ok(labels)
}

fn copies_of(alloc: Global, labels: &[Text]) -> Result<List<Text>, NoMemory>
    ensures { IfOk result (λ copies. copies ≡ labels.now) }
{
    let mut copies = List::new(alloc);
    for label in labels {
        copies.push(label.copy(alloc)?)?;
    }
    Ok(copies)
}

fn add_label(text: &mut String, label: &str) -> Result<(), NoMemory>
    ensures { OnOk result (string_bytes text.new ≡ string_bytes text.old ++ 46 ∷ label.now) }
{
    text.push('.')?;
    text.push_str(label)?;
    Ok(())
}

// The labels, joined by dots.
fn joined(alloc: Global, first: &Text, others: &[Text]) -> Result<Text, NoMemory>
    ensures { IfOk result (λ made. made ≡ join_with_byte 46 (first.now ∷ others.now)) }
{
    let mut text = String::from_str(alloc, first.as_str())?;
    for label in others {
        add_label(&mut text, label.as_str())?;
    }
    Ok(Text::from_string(text))
}

impl ModuleId {
    /// The id of these labels. Each is of `a` to `z`, `0` to `9` and `_`, and there is one at least, in an id that a text may write.
    pub fn from_labels(alloc: Global, labels: &[&str]) -> Result<ModuleId, NoMemory>
        ensures { IfOk result (λ id. id.labels ≡ map (λ label. label.now) labels.now) }
    {
        let labels = labels_of(alloc, labels)?;
        Ok(ModuleId { labels })
    }

    /// The id that a text writes; BadForm exactly where it writes none.
    pub fn read(alloc: Global, text: &Text) -> Result<ModuleId, IdFormFault>
        ensures { Gives IdFormFault.NoMemory result (id_of text.now) }
    {
        let parts = parts_of(alloc, text.as_str(), '.')?;
        if !are_labels(parts.as_slice()) {
            return Err(IdFormFault::BadForm);
        }
        let labels = labels_of(alloc, parts.as_slice())?;
        Ok(ModuleId { labels })
    }

    /// The text of the id: its labels, joined by dots.
    pub fn to_text(&self, alloc: Global) -> Result<Text, NoMemory>
        ensures { IfOk result (λ text. text ≡ dotted self.now) }
    {
        match self.labels.as_slice() {
            [] => Ok(Text::from_string(String::new(alloc))),
            [first, others @ ..] => joined(alloc, first, others),
        }
    }

    /// A copy.
    pub fn copy(&self, alloc: Global) -> Result<ModuleId, NoMemory>
        ensures { IfOk result (λ id. id ≡ self.now) }
    {
        let labels = copies_of(alloc, self.labels.as_slice())?;
        Ok(ModuleId { labels })
    }

    /// The last label, which each id that was read has. It takes no memory.
    pub fn name(&self) -> Option<&Text>
        ensures { option_copied result ≡ name_in self.now.labels }
    {
        self.labels.get(self.labels.len().saturating_sub(1))
    }

    /// The labels before the last one. It takes no memory.
    pub fn namespace(&self) -> &[Text]
        ensures { result.now ≡ namespace_in self.now.labels }
    {
        let labels = self.labels.as_slice();
        &labels[..labels.len().saturating_sub(1)]
    }
}
