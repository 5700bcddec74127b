//! Attributes in messages (RFC 1813, section 2.6).

ghost use Rattle.std.specs.Prelude.{◌≡◌, ◌++◌, OnOk};
ghost use Rattle.nfs3_values.specs.Attributes.{times_text, sizes_text, TimesFit, SizesFit};

use crate::fault::MessageFault;
use crate::value::{XdrValue, bad_enum, read_word};
use nfs3_types::{
    Device, FileAttributes, FileType, Optional, SetAttributes, SetTime, Time, WccAttributes,
    WccData,
};
use std::alloc::{AllocError, Global};
use xdr_records::{Reader, put_u32};

impl XdrValue for FileType {
    ghost use Rattle.xdr_records.specs.Grammar.Grammar.{named};
    ghost use Rattle.xdr_records.specs.Texts.{word_text};
    ghost use Rattle.nfs3_types.specs.Numbers.{type_number};
    ghost use Rattle.nfs3_values.specs.Words.{file_type_of};
    ghost use Rattle.nfs3_values.specs.Spelled.{file_type_spelled};

    ghost grammar = { named file_type_of };

    ghost text = { λ file_type. word_text (type_number file_type) };

    ghost fits = { λ _. Unit {0} };

    #[tactic(auto, unfolding(crate::specs::Words::file_type_of))]
    fn read(_alloc: Global, reader: &mut Reader<'_>) -> Result<FileType, MessageFault> {
        let at = reader.offset();
        match read_word(reader)? {
            1 => Ok(FileType::Regular),
            2 => Ok(FileType::Directory),
            3 => Ok(FileType::BlockDevice),
            4 => Ok(FileType::CharacterDevice),
            5 => Ok(FileType::SymbolicLink),
            6 => Ok(FileType::Socket),
            7 => Ok(FileType::Fifo),
            _ => Err(bad_enum(at)),
        }
    }

    fn put(&self, out: &mut Vec<u8>) -> Result<(), AllocError> {
        put_u32(out, self.number())
    }

    ghost spelled = { λ file_type _. file_type_spelled file_type };
}

impl XdrValue for Time {
    ghost use Rattle.nfs3_values.specs.Attributes.{time, time_text, TimeFits};
    ghost use Rattle.nfs3_values.specs.Spelled.{time_spelled};

    ghost grammar = { time };

    ghost text = { time_text };

    ghost fits = { TimeFits };

    #[tactic(auto, unfolding(crate::specs::Attributes::time))]
    fn read(alloc: Global, reader: &mut Reader<'_>) -> Result<Time, MessageFault> {
        let seconds = u32::read(alloc, reader)?;
        let nanoseconds = u32::read(alloc, reader)?;
        Ok(Time {
            seconds,
            nanoseconds,
        })
    }

    #[tactic(auto, unfolding(crate::specs::Attributes::time_text, crate::specs::Attributes::TimeFits))]
    fn put(&self, out: &mut Vec<u8>) -> Result<(), AllocError> {
        self.seconds.put(out)?;
        self.nanoseconds.put(out)
    }

    ghost spelled = { time_spelled };
}

impl XdrValue for Device {
    ghost use Rattle.nfs3_values.specs.Attributes.{device, device_text, DeviceFits};
    ghost use Rattle.nfs3_values.specs.Spelled.{device_spelled};

    ghost grammar = { device };

    ghost text = { device_text };

    ghost fits = { DeviceFits };

    #[tactic(auto, unfolding(crate::specs::Attributes::device))]
    fn read(alloc: Global, reader: &mut Reader<'_>) -> Result<Device, MessageFault> {
        let major = u32::read(alloc, reader)?;
        let minor = u32::read(alloc, reader)?;
        Ok(Device { major, minor })
    }

    #[tactic(auto, unfolding(crate::specs::Attributes::device_text, crate::specs::Attributes::DeviceFits))]
    fn put(&self, out: &mut Vec<u8>) -> Result<(), AllocError> {
        self.major.put(out)?;
        self.minor.put(out)
    }

    ghost spelled = { device_spelled };
}

// The last three of the attributes.
#[tactic(auto, unfolding(crate::specs::Attributes::times_text, crate::specs::Attributes::TimesFit))]
fn put_times(out: &mut Vec<u8>, attributes: &FileAttributes) -> Result<(), AllocError>
    ensures ok { OnOk result (out.new.items ≡ out.old.items ++ times_text attributes.now) }
    ensures fits { OnOk result (TimesFit attributes.now) }
{
    attributes.access_time.put(out)?;
    attributes.modify_time.put(out)?;
    attributes.change_time.put(out)
}

// The attributes from the size on.
#[tactic(auto, unfolding(crate::specs::Attributes::sizes_text, crate::specs::Attributes::SizesFit))]
fn put_sizes(out: &mut Vec<u8>, attributes: &FileAttributes) -> Result<(), AllocError>
    ensures ok { OnOk result (out.new.items ≡ out.old.items ++ sizes_text attributes.now) }
    ensures fits { OnOk result (SizesFit attributes.now) }
{
    attributes.size.put(out)?;
    attributes.used.put(out)?;
    attributes.device.put(out)?;
    attributes.file_system.put(out)?;
    attributes.file_number.put(out)?;
    put_times(out, attributes)
}

impl XdrValue for FileAttributes {
    ghost use Rattle.nfs3_values.specs.Attributes.{file_attributes, file_attributes_text, FileAttributesFit};
    ghost use Rattle.nfs3_values.specs.Spelled.{file_attributes_spelled};

    ghost grammar = { file_attributes };

    ghost text = { file_attributes_text };

    ghost fits = { FileAttributesFit };

    #[tactic(auto, unfolding(crate::specs::Attributes::file_attributes))]
    fn read(alloc: Global, reader: &mut Reader<'_>) -> Result<FileAttributes, MessageFault> {
        let file_type = FileType::read(alloc, reader)?;
        let mode = u32::read(alloc, reader)?;
        let link_count = u32::read(alloc, reader)?;
        let user = u32::read(alloc, reader)?;
        let group = u32::read(alloc, reader)?;
        let size = u64::read(alloc, reader)?;
        let used = u64::read(alloc, reader)?;
        let device = Device::read(alloc, reader)?;
        let file_system = u64::read(alloc, reader)?;
        let file_number = u64::read(alloc, reader)?;
        let access_time = Time::read(alloc, reader)?;
        let modify_time = Time::read(alloc, reader)?;
        let change_time = Time::read(alloc, reader)?;
        Ok(FileAttributes {
            file_type,
            mode,
            link_count,
            user,
            group,
            size,
            used,
            device,
            file_system,
            file_number,
            access_time,
            modify_time,
            change_time,
        })
    }

    #[tactic(auto, unfolding(crate::specs::Attributes::file_attributes_text, crate::specs::Attributes::FileAttributesFit))]
    fn put(&self, out: &mut Vec<u8>) -> Result<(), AllocError> {
        self.file_type.put(out)?;
        self.mode.put(out)?;
        self.link_count.put(out)?;
        self.user.put(out)?;
        self.group.put(out)?;
        put_sizes(out, self)
    }

    ghost spelled = { file_attributes_spelled };
}

impl XdrValue for WccAttributes {
    ghost use Rattle.nfs3_values.specs.Attributes.{wcc_attributes, wcc_attributes_text, WccAttributesFit};
    ghost use Rattle.nfs3_values.specs.Spelled.{wcc_attributes_spelled};

    ghost grammar = { wcc_attributes };

    ghost text = { wcc_attributes_text };

    ghost fits = { WccAttributesFit };

    #[tactic(auto, unfolding(crate::specs::Attributes::wcc_attributes))]
    fn read(alloc: Global, reader: &mut Reader<'_>) -> Result<WccAttributes, MessageFault> {
        let size = u64::read(alloc, reader)?;
        let modify_time = Time::read(alloc, reader)?;
        let change_time = Time::read(alloc, reader)?;
        Ok(WccAttributes {
            size,
            modify_time,
            change_time,
        })
    }

    #[tactic(auto, unfolding(crate::specs::Attributes::wcc_attributes_text, crate::specs::Attributes::WccAttributesFit))]
    fn put(&self, out: &mut Vec<u8>) -> Result<(), AllocError> {
        self.size.put(out)?;
        self.modify_time.put(out)?;
        self.change_time.put(out)
    }

    ghost spelled = { wcc_attributes_spelled };
}

impl XdrValue for WccData {
    ghost use Rattle.nfs3_values.specs.Attributes.{wcc_data, wcc_data_text, WccDataFits};
    ghost use Rattle.nfs3_values.specs.Spelled.{wcc_data_spelled};

    ghost grammar = { wcc_data };

    ghost text = { wcc_data_text };

    ghost fits = { WccDataFits };

    #[tactic(auto, unfolding(crate::specs::Attributes::wcc_data))]
    fn read(alloc: Global, reader: &mut Reader<'_>) -> Result<WccData, MessageFault> {
        let before = Optional::<WccAttributes>::read(alloc, reader)?;
        let after = Optional::<FileAttributes>::read(alloc, reader)?;
        Ok(WccData { before, after })
    }

    #[tactic(auto, unfolding(crate::specs::Attributes::wcc_data_text, crate::specs::Attributes::WccDataFits))]
    fn put(&self, out: &mut Vec<u8>) -> Result<(), AllocError> {
        self.before.put(out)?;
        self.after.put(out)
    }

    ghost spelled = { wcc_data_spelled };
}

impl XdrValue for SetTime {
    ghost use Rattle.nfs3_values.specs.Settings.{set_time, set_time_text, SetTimeFits};
    ghost use Rattle.nfs3_values.specs.Spelled.{set_time_spelled};

    ghost grammar = { set_time };

    ghost text = { set_time_text };

    ghost fits = { SetTimeFits };

    #[tactic(auto, unfolding(crate::specs::Settings::set_time, crate::specs::Words::time_how_of))]
    fn read(alloc: Global, reader: &mut Reader<'_>) -> Result<SetTime, MessageFault> {
        let at = reader.offset();
        match read_word(reader)? {
            0 => Ok(SetTime::Keep),
            1 => Ok(SetTime::ServerTime),
            2 => Ok(SetTime::ClientTime(Time::read(alloc, reader)?)),
            _ => Err(bad_enum(at)),
        }
    }

    #[tactic(auto, unfolding(crate::specs::Settings::set_time_text, crate::specs::Settings::SetTimeFits))]
    fn put(&self, out: &mut Vec<u8>) -> Result<(), AllocError> {
        match self {
            SetTime::Keep => put_u32(out, 0),
            SetTime::ServerTime => put_u32(out, 1),
            SetTime::ClientTime(time) => {
                put_u32(out, 2)?;
                time.put(out)
            }
        }
    }

    ghost spelled = { set_time_spelled };
}

impl XdrValue for SetAttributes {
    ghost use Rattle.nfs3_values.specs.Settings.{set_attributes, set_attributes_text, SetAttributesFit};
    ghost use Rattle.nfs3_values.specs.Spelled.{set_attributes_spelled};

    ghost grammar = { set_attributes };

    ghost text = { set_attributes_text };

    ghost fits = { SetAttributesFit };

    #[tactic(auto, unfolding(crate::specs::Settings::set_attributes))]
    fn read(alloc: Global, reader: &mut Reader<'_>) -> Result<SetAttributes, MessageFault> {
        let mode = Option::<u32>::read(alloc, reader)?;
        let user = Option::<u32>::read(alloc, reader)?;
        let group = Option::<u32>::read(alloc, reader)?;
        let size = Option::<u64>::read(alloc, reader)?;
        let access_time = SetTime::read(alloc, reader)?;
        let modify_time = SetTime::read(alloc, reader)?;
        Ok(SetAttributes {
            mode,
            user,
            group,
            size,
            access_time,
            modify_time,
        })
    }

    #[tactic(auto, unfolding(crate::specs::Settings::set_attributes_text, crate::specs::Settings::SetAttributesFit))]
    fn put(&self, out: &mut Vec<u8>) -> Result<(), AllocError> {
        self.mode.put(out)?;
        self.user.put(out)?;
        self.group.put(out)?;
        self.size.put(out)?;
        self.access_time.put(out)?;
        self.modify_time.put(out)
    }

    ghost spelled = { set_attributes_spelled };
}
