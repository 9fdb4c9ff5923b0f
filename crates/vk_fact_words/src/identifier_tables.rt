//! The identifiers of valid usage for which each rule stands.

// ---- of rules on objects and how they are made and bound

/// Of LIVE_ID.
pub static LIVE_ID: [&str; 27] = [
    "VUID-vkCmdFillBuffer-dstBuffer-parameter",
    "VUID-vkCmdUpdateBuffer-dstBuffer-parameter",
    "VUID-vkCmdCopyBuffer-srcBuffer-parameter",
    "VUID-vkCmdCopyBuffer-dstBuffer-parameter",
    "VUID-vkCmdClearColorImage-image-parameter",
    "VUID-vkCmdCopyBufferToImage-srcBuffer-parameter",
    "VUID-vkCmdCopyBufferToImage-dstImage-parameter",
    "VUID-vkCmdCopyImageToBuffer-srcImage-parameter",
    "VUID-vkCmdCopyImageToBuffer-dstBuffer-parameter",
    "VUID-vkCmdCopyImage-srcImage-parameter",
    "VUID-vkCmdCopyImage-dstImage-parameter",
    "VUID-VkBufferMemoryBarrier2-buffer-parameter",
    "VUID-VkImageMemoryBarrier2-image-parameter",
    "VUID-vkCmdSetEvent2-event-parameter",
    "VUID-vkCmdWaitEvents2-pEvents-parameter",
    "VUID-vkQueueSubmit2-commandBuffer-03874",
    "VUID-VkSemaphoreSubmitInfo-semaphore-parameter",
    "VUID-VkSemaphoreSignalInfo-semaphore-parameter",
    "VUID-VkSemaphoreWaitInfo-pSemaphores-parameter",
    "VUID-vkDestroyBuffer-buffer-parameter",
    "VUID-vkDestroyImage-image-parameter",
    "VUID-vkMapMemory-memory-parameter",
    "VUID-vkUnmapMemory-memory-parameter",
    "VUID-VkMappedMemoryRange-memory-parameter",
    "VUID-vkBindBufferMemory-memory-parameter",
    "VUID-vkBindImageMemory-memory-parameter",
    "VUID-vkFreeMemory-memory-parameter",
];

/// Of QUEUE.
pub static QUEUE: [&str; 3] = [
    "VUID-vkGetDeviceQueue-queueFamilyIndex-00384",
    "VUID-vkGetDeviceQueue-queueIndex-00385",
    "VUID-vkQueueSubmit2-queue-parameter",
];

/// Of QUEUE_KIND.
pub static QUEUE_KIND: [&str; 4] = [
    "VUID-vkCmdClearColorImage-commandBuffer-cmdpool",
    "VUID-vkCmdSetEvent2-commandBuffer-cmdpool",
    "VUID-vkCmdWaitEvents2-commandBuffer-cmdpool",
    "VUID-vkQueueSubmit2-commandBuffer-03878",
];

/// Of SIZE.
pub static SIZE: [&str; 21] = [
    "VUID-VkBufferCreateInfo-size-00912",
    "VUID-VkImageCreateInfo-extent-00944",
    "VUID-VkImageCreateInfo-extent-00945",
    "VUID-VkImageCreateInfo-arrayLayers-00948",
    "VUID-VkImageCreateInfo-mipLevels-00947",
    "VUID-VkImageCreateInfo-mipLevels-00958",
    "VUID-VkImageCreateInfo-extent-02252",
    "VUID-VkImageCreateInfo-extent-02253",
    "VUID-VkImageCreateInfo-arrayLayers-02256",
    "VUID-VkImageCreateInfo-mipLevels-02255",
    "VUID-vkCmdFillBuffer-size-00026",
    "VUID-vkCmdUpdateBuffer-dataSize-arraylength",
    "VUID-vkCmdUpdateBuffer-dataSize-00037",
    "VUID-VkBufferCopy-size-01988",
    "VUID-VkBufferMemoryBarrier2-size-01188",
    "VUID-vkCmdCopyBuffer-regionCount-arraylength",
    "VUID-vkCmdCopyBufferToImage-regionCount-arraylength",
    "VUID-vkCmdCopyImageToBuffer-regionCount-arraylength",
    "VUID-vkCmdCopyImage-regionCount-arraylength",
    "VUID-vkCmdClearColorImage-rangeCount-arraylength",
    "VUID-VkSemaphoreWaitInfo-semaphoreCount-arraylength",
];

/// Of USAGE.
pub static USAGE: [&str; 17] = [
    "VUID-VkBufferCreateInfo-usage-requiredbitmask",
    "VUID-VkBufferCreateInfo-usage-parameter",
    "VUID-VkImageCreateInfo-usage-requiredbitmask",
    "VUID-VkImageCreateInfo-usage-parameter",
    "VUID-vkCmdCopyBuffer-srcBuffer-00118",
    "VUID-vkCmdCopyBufferToImage-srcBuffer-00174",
    "VUID-vkCmdFillBuffer-dstBuffer-00029",
    "VUID-vkCmdUpdateBuffer-dstBuffer-00034",
    "VUID-vkCmdCopyBuffer-dstBuffer-00120",
    "VUID-vkCmdCopyImageToBuffer-dstBuffer-00191",
    "VUID-vkCmdCopyImageToBuffer-srcImage-00186",
    "VUID-vkCmdCopyImage-aspect-06662",
    "VUID-vkCmdClearColorImage-image-00002",
    "VUID-vkCmdCopyBufferToImage-dstImage-00177",
    "VUID-vkCmdCopyImage-aspect-06663",
    "VUID-VkImageMemoryBarrier2-oldLayout-01212",
    "VUID-VkImageMemoryBarrier2-oldLayout-01213",
];

/// Of MEMORY_TYPE.
pub static MEMORY_TYPE: [&str; 4] = [
    "VUID-vkAllocateMemory-pAllocateInfo-01714",
    "VUID-vkBindBufferMemory-memory-01035",
    "VUID-vkBindImageMemory-memory-01047",
    "VUID-VkBindImageMemoryInfo-pNext-01615",
];

/// Of MEMORY_SIZE.
pub static MEMORY_SIZE: [&str; 2] = [
    "VUID-VkMemoryAllocateInfo-allocationSize-00638",
    "VUID-VkBufferCreateInfo-size-06409",
];

/// Of BIND_RANGE.
pub static BIND_RANGE: [&str; 6] = [
    "VUID-vkBindBufferMemory-memoryOffset-01031",
    "VUID-vkBindBufferMemory-size-01037",
    "VUID-vkBindImageMemory-memoryOffset-01046",
    "VUID-vkBindImageMemory-size-01049",
    "VUID-VkBindImageMemoryInfo-memoryOffset-01046",
    "VUID-VkBindImageMemoryInfo-pNext-01617",
];

/// Of BIND_ALIGN.
pub static BIND_ALIGN: [&str; 3] = [
    "VUID-vkBindBufferMemory-memoryOffset-01036",
    "VUID-vkBindImageMemory-memoryOffset-01048",
    "VUID-VkBindImageMemoryInfo-pNext-01616",
];

// ---- of rules on the bytes and texels that commands name

/// Of RANGE.
pub static RANGE: [&str; 16] = [
    "VUID-vkCmdFillBuffer-dstOffset-00024",
    "VUID-vkCmdFillBuffer-size-00027",
    "VUID-vkCmdUpdateBuffer-dstOffset-00032",
    "VUID-vkCmdUpdateBuffer-dataSize-00033",
    "VUID-vkCmdCopyBuffer-srcOffset-00113",
    "VUID-vkCmdCopyBuffer-size-00115",
    "VUID-vkCmdCopyBuffer-dstOffset-00114",
    "VUID-vkCmdCopyBuffer-size-00116",
    "VUID-VkBufferMemoryBarrier2-offset-01187",
    "VUID-VkBufferMemoryBarrier2-size-01189",
    "VUID-vkCmdCopyBufferToImage-pRegions-00171",
    "VUID-vkCmdCopyImageToBuffer-pRegions-00183",
    "VUID-VkBufferImageCopy-bufferRowLength-00195",
    "VUID-VkBufferImageCopy-bufferImageHeight-00196",
    "VUID-VkMappedMemoryRange-size-00685",
    "VUID-VkMappedMemoryRange-size-00686",
];

/// Of ALIGN.
pub static ALIGN: [&str; 10] = [
    "VUID-vkCmdFillBuffer-dstOffset-00025",
    "VUID-vkCmdFillBuffer-size-00028",
    "VUID-vkCmdUpdateBuffer-dstOffset-00036",
    "VUID-vkCmdUpdateBuffer-dataSize-00038",
    "VUID-vkCmdCopyBufferToImage-bufferOffset-01558",
    "VUID-vkCmdCopyBufferToImage-pRegions-07273",
    "VUID-vkCmdCopyImageToBuffer-bufferOffset-01558",
    "VUID-vkCmdCopyImageToBuffer-pRegions-07273",
    "VUID-vkCmdCopyBufferToImage-commandBuffer-07737",
    "VUID-vkCmdCopyImageToBuffer-commandBuffer-07746",
];

/// Of OVERLAP.
pub static OVERLAP: [&str; 4] = [
    "VUID-vkCmdCopyBuffer-pRegions-00117",
    "VUID-vkCmdCopyBufferToImage-pRegions-00173",
    "VUID-vkCmdCopyImageToBuffer-pRegions-00184",
    "VUID-vkCmdCopyImage-pRegions-00124",
];

/// Of FORMAT.
pub static FORMAT: [&str; 1] = ["VUID-vkCmdCopyImage-srcImage-01548"];

/// Of SUBRESOURCE.
pub static SUBRESOURCE: [&str; 33] = [
    "VUID-VkImageSubresourceRange-levelCount-01720",
    "VUID-VkImageSubresourceRange-layerCount-01721",
    "VUID-VkImageSubresourceLayers-layerCount-01700",
    "VUID-VkBufferImageCopy-imageExtent-06659",
    "VUID-VkBufferImageCopy-imageExtent-06660",
    "VUID-VkImageCopy-extent-06668",
    "VUID-VkImageCopy-extent-06669",
    "VUID-vkCmdClearColorImage-baseMipLevel-01470",
    "VUID-vkCmdClearColorImage-pRanges-01692",
    "VUID-vkCmdCopyBufferToImage-imageSubresource-01701",
    "VUID-vkCmdCopyImageToBuffer-imageSubresource-01703",
    "VUID-vkCmdCopyImage-srcSubresource-01696",
    "VUID-vkCmdCopyImage-dstSubresource-01697",
    "VUID-VkImageMemoryBarrier2-subresourceRange-01486",
    "VUID-VkImageMemoryBarrier2-subresourceRange-01724",
    "VUID-vkCmdClearColorImage-baseArrayLayer-01472",
    "VUID-vkCmdClearColorImage-pRanges-01693",
    "VUID-vkCmdCopyBufferToImage-imageSubresource-01702",
    "VUID-vkCmdCopyImageToBuffer-imageSubresource-01704",
    "VUID-vkCmdCopyImage-srcSubresource-01698",
    "VUID-vkCmdCopyImage-dstSubresource-01699",
    "VUID-VkImageMemoryBarrier2-subresourceRange-01488",
    "VUID-VkImageMemoryBarrier2-subresourceRange-01725",
    "VUID-vkCmdCopyBufferToImage-pRegions-06217",
    "VUID-vkCmdCopyBufferToImage-pRegions-06218",
    "VUID-vkCmdCopyBufferToImage-pRegions-06219",
    "VUID-vkCmdCopyImageToBuffer-pRegions-06220",
    "VUID-vkCmdCopyImageToBuffer-pRegions-06221",
    "VUID-vkCmdCopyImageToBuffer-pRegions-06222",
    "VUID-vkCmdCopyImage-srcOffset-00144",
    "VUID-vkCmdCopyImage-srcOffset-00145",
    "VUID-vkCmdCopyImage-dstOffset-00150",
    "VUID-vkCmdCopyImage-dstOffset-00151",
];

// ---- of rules on layouts, synchronization, the host, and the ends of objects

/// Of STAGE.
pub static STAGE: [&str; 17] = [
    "VUID-VkMemoryBarrier2-srcStageMask-parameter",
    "VUID-VkMemoryBarrier2-dstStageMask-parameter",
    "VUID-VkMemoryBarrier2-srcAccessMask-parameter",
    "VUID-VkMemoryBarrier2-dstAccessMask-parameter",
    "VUID-VkSemaphoreSubmitInfo-stageMask-parameter",
    "VUID-vkCmdPipelineBarrier2-srcStageMask-03849",
    "VUID-vkCmdPipelineBarrier2-dstStageMask-03850",
    "VUID-vkCmdSetEvent2-srcStageMask-03827",
    "VUID-vkCmdSetEvent2-dstStageMask-03828",
    "VUID-vkCmdWaitEvents2-srcStageMask-03842",
    "VUID-vkCmdWaitEvents2-dstStageMask-03843",
    "VUID-vkQueueSubmit2-stageMask-03869",
    "VUID-vkQueueSubmit2-stageMask-03870",
    "VUID-VkMemoryBarrier2-srcAccessMask-03914",
    "VUID-VkMemoryBarrier2-srcAccessMask-03915",
    "VUID-VkMemoryBarrier2-srcAccessMask-03916",
    "VUID-VkMemoryBarrier2-srcAccessMask-03917",
];

/// Of LAYOUT.
pub static LAYOUT: [&str; 18] = [
    "VUID-vkCmdClearColorImage-imageLayout-00005",
    "VUID-vkCmdCopyBufferToImage-dstImageLayout-00181",
    "VUID-vkCmdCopyImageToBuffer-srcImageLayout-00190",
    "VUID-vkCmdCopyImage-srcImageLayout-00129",
    "VUID-vkCmdCopyImage-dstImageLayout-00134",
    "VUID-vkCmdClearColorImage-imageLayout-01394",
    "VUID-vkCmdCopyBufferToImage-dstImageLayout-01396",
    "VUID-vkCmdCopyImageToBuffer-srcImageLayout-01397",
    "VUID-vkCmdCopyImage-srcImageLayout-01917",
    "VUID-vkCmdCopyImage-dstImageLayout-01395",
    "VUID-vkCmdClearColorImage-imageLayout-00004",
    "VUID-vkCmdCopyBufferToImage-dstImageLayout-00180",
    "VUID-vkCmdCopyImageToBuffer-srcImageLayout-00189",
    "VUID-vkCmdCopyImage-srcImageLayout-00128",
    "VUID-vkCmdCopyImage-dstImageLayout-00133",
    "VUID-VkImageMemoryBarrier2-newLayout-01198",
    "VUID-VkImageMemoryBarrier2-oldLayout-parameter",
    "VUID-VkImageMemoryBarrier2-newLayout-parameter",
];

/// Of OLD_LAYOUT.
pub static OLD_LAYOUT: [&str; 1] = ["VUID-VkImageMemoryBarrier2-oldLayout-01197"];

/// Of OWNER_PAIR.
pub static OWNER_PAIR: [&str; 7] = [
    "VUID-VkBufferMemoryBarrier2-buffer-04086",
    "VUID-VkBufferMemoryBarrier2-buffer-04089",
    "VUID-VkBufferMemoryBarrier2-srcQueueFamilyIndex-04087",
    "VUID-VkImageMemoryBarrier2-image-04069",
    "VUID-VkImageMemoryBarrier2-image-04072",
    "VUID-VkImageMemoryBarrier2-srcQueueFamilyIndex-04070",
    "VUID-vkQueueSubmit2-commandBuffer-03879",
];

/// Of EVENT_STATE.
pub static EVENT_STATE: [&str; 2] = [
    "VUID-vkCmdWaitEvents2-pEvents-03841",
    "VUID-vkQueueSubmit2-commandBuffer-03867",
];

/// Of EVENT_DEPENDENCY.
pub static EVENT_DEPENDENCY: [&str; 1] = ["VUID-vkCmdWaitEvents2-pEvents-03838"];

/// Of SIGNAL_VALUE.
pub static SIGNAL_VALUE: [&str; 4] = [
    "VUID-VkSubmitInfo2-semaphore-03882",
    "VUID-VkSubmitInfo2-semaphore-03881",
    "VUID-VkSemaphoreSignalInfo-value-03258",
    "VUID-VkSemaphoreSignalInfo-value-03259",
];

/// Of SIGNAL_ORDER.
pub static SIGNAL_ORDER: [&str; 3] = [
    "VUID-VkSubmitInfo2-semaphore-03882",
    "VUID-VkSemaphoreSignalInfo-value-03258",
    "VUID-VkSemaphoreSignalInfo-value-03259",
];

/// Of WAIT_BEFORE_SIGNAL.
pub static WAIT_BEFORE_SIGNAL: [&str; 1] = ["VUID-vkQueueSubmit2-semaphore-03872"];

/// Of MAP_STATE.
pub static MAP_STATE: [&str; 3] = [
    "VUID-vkMapMemory-memory-00678",
    "VUID-vkUnmapMemory-memory-00689",
    "VUID-VkMappedMemoryRange-memory-00684",
];

/// Of HOST_VISIBLE.
pub static HOST_VISIBLE: [&str; 1] = ["VUID-vkMapMemory-memory-00682"];

/// Of PASS_BUSY.
pub static PASS_BUSY: [&str; 2] = [
    "VUID-vkDestroyBuffer-buffer-00922",
    "VUID-vkDestroyImage-image-01000",
];

/// Of IN_USE.
pub static IN_USE: [&str; 3] = [
    "VUID-vkDestroyBuffer-buffer-00922",
    "VUID-vkDestroyImage-image-01000",
    "VUID-vkFreeMemory-memory-00677",
];
